// Calls that say why each bay of a system holds what it holds, and which rule forbids each strand at one bay.
#![tactic(auto)]

mod bays;
mod strands;

pub use bays::mark_bays;
pub use strands::rule_strands;
