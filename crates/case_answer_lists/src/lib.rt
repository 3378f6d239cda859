// Lists and texts in an answer line. docs/CASES.md says what they look like.
//
// Each function puts them as `text_put` puts a text: at a place of a lent slice, as far as it has room, answering the next place.
#![tactic(auto)]

mod coded;
mod lists;

pub use coded::put_coded;
pub use lists::{
    put_long_numbers, put_next_float, put_next_number, put_numbers, put_small_numbers,
};
