// The energy of a layout.
#![tactic(auto)]

mod state;

pub use state::{answered, state_g};
