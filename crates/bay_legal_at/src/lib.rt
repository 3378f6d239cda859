// The legal strands of one bay, as a set.
#![tactic(auto)]

mod seeds;
mod sets_at;

pub use seeds::seed_at;
pub use sets_at::{base_allowed_tiles_at, constrained_allowed_tiles_at};
