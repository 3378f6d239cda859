// Why a bay holds what it holds, and for each strand whether it is legal there or which rule forbids it.
#![tactic(auto)]

mod bays;
mod rules;

pub use bays::{BayReason, bay_reason};
pub use rules::{StrandRule, strand_rule};
