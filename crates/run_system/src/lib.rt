// The run over a system that passed its tests, up to its least sum: tables, ledger and layout.
#![tactic(auto)]

mod system;
mod tables;

pub use system::run_system;
