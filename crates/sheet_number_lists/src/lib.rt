// Strand numbers with single spaces between them, as the content of a sheet's field has them.
//
// The functions take what they are lent, whatever it is, and copy no byte.
#![tactic(auto)]

mod lists;
mod plain;

pub use lists::{count_numbers, put_list};
pub use plain::plain_number;
