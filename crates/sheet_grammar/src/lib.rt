// What is proved of constraint sheets as a whole; there is no code here.
#![tactic(auto)]
