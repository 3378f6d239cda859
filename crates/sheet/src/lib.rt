// Constraint sheets: read from comma-separated text into offsets and tile lists, and written back.
#![tactic(auto)]

mod grid;
mod read;
mod write;

pub use read::read_sheet;
pub use write::write_sheet;
