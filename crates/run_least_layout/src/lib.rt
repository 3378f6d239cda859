// What a least-energy run is: its bays in scan order, its need, its least sum and its layout, and the theorem that these are what the customer asks
// for. There is no code here.
#![tactic(auto)]
