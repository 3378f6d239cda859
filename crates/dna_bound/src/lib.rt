// How far the answered ΔG of a sequence is from the exact sum of the published decimals. There is no code here: the statement is in specs/, its proof in proofs/.
#![tactic(auto)]
