// Energy keys from a sheet of five fields a record: two names, of which the second may be blank, the two numbers and a sequence.
//
// A key gives both numbers and no sequence, or a sequence and neither number. The sheet is first tested, and then read into the
// tables that the keys are taken from.
#![tactic(auto)]

mod key_faults;
mod key_tables;

pub use key_faults::check_keys;
pub use key_tables::{KeyTexts, put_keys};
