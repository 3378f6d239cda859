// The reader of case files that the program `answers` and its libraries share. docs/CASES.md says what they look like.
//
// Every function takes what it is lent, whatever it is: none has a `requires`. Values are read in
// place, so a name, a field or an item is a part of the line that it stands in. All take time
// linear in what they read.
#![tactic(auto)]

mod fields;
mod places;
mod plain;

pub use fields::{call_name, field, has_field, is_case, same};
pub use places::{item_end, line_end};
pub use plain::is_plain;
pub use text_digits::{float, number, whole};
pub use text_fronts::front;
