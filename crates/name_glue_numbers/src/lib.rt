// What the numbers of a registering mean; its theorems are in proofs/.
#![tactic(auto)]
