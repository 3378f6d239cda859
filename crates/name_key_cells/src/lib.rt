// The matrices cell by cell: which key decides a cell; the theorems are in proofs/.
#![tactic(auto)]
