// The chemist's answer, from the bytes of a constraint sheet to the strand in the layout; there is no code here.
#![tactic(auto)]
