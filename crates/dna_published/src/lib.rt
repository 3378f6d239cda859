// What is answered for one sequence beside the paper's values: the statement is in specs/, the theorem in proofs/. There is no code here.
#![tactic(auto)]
