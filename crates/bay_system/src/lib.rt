// The system: its sizes and slices, and what is refused of it.
#![tactic(auto)]

mod sizes;
mod system;

pub use sizes::Sizes;
pub use system::{System, check_system};
