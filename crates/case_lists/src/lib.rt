// Texts and lists in the values of a case line, read to the front of a lent slice. docs/CASES.md says what they look like.
//
// Every public function takes what it is lent, whatever it is, and time linear in what it reads. What stands in the slice behind
// the front stays. Each answers how many bytes or items it wrote, and nothing where one is unreadable or has no room.
#![tactic(auto)]

mod item;
mod lists;
mod text;

pub use item::Item;
pub use lists::list_into;
pub use text::text_into;
