// The legal strands of every bay, as sets.
#![tactic(auto)]

mod allowed;
mod grid;

pub use allowed::allowed_tiles;
pub use grid::{check_empty, fill_sets};
