// Tables that the fields of a case are read into, several in one, each between two places of its own, and how much of each was read.
#![tactic(auto)]

mod grid;

ghost use Rattle.std.specs.Prelude.{◌≡◌, take, drop};
ghost use Rattle.case_lists.specs.Lists.{items};
ghost use Rattle.case_lists.specs.Text.{signs, is_sign, byte_of};
ghost use Rattle.case_fields.specs.Values.{number_or};
ghost use Rattle.case_parts.specs.Parts.{length_for, count_between, front_between};

use case_fields::{list_field, number_or, text_field};
use case_lists::Item;
use case_text::front;
pub use grid::{Grid, bays_of, read_grid};
use text_fronts::least;

// A length that could not be read: more than any table here has places. It is no Option, since each caller
// compares a length with the room that it has, which this one fails too.
pub const UNREAD: usize = 1048576;

// Reads a text to the places of a table between two, and answers how many bytes were read of it. A function of its own beside
// `list_between`: the signs of a text have no commas between them, so they are no `Item`s.
pub fn text_between(
    line: &[u8],
    key: &[u8],
    room: &mut [u8],
    from: usize,
    to: usize,
) -> Option<usize>
    ensures count { result ≡ count_between is_sign signs key.now line.now from to room.old }
    ensures table { room.new ≡ front_between is_sign byte_of signs key.now line.now from to room.old }
{
    let end = least(to, room.len());
    let start = least(from, end);
    text_field(line, key, &mut room[start..end])
}

// Reads a list likewise.
pub fn list_between<T: Item>(
    line: &[u8],
    key: &[u8],
    room: &mut [T],
    from: usize,
    to: usize,
) -> Option<usize>
    ensures count { result ≡ count_between T.is_item items key.now line.now from to room.old }
    ensures table { room.new ≡ front_between T.is_item T.value_in items key.now line.now from to room.old }
{
    let end = least(to, room.len());
    let start = least(from, end);
    list_field(line, key, &mut room[start..end])
}

// So many places of a table from one on, as far as it goes.
pub fn part_from<T>(table: &[T], from: usize, count: usize) -> &[T]
    ensures { result.now ≡ take count (drop from table.now) }
{
    front(&table[least(from, table.len())..], count)
}

// How long a case says that a lent table is, or the right length where it does not say.
pub fn length_of(line: &[u8], key: &[u8], right: usize) -> usize
    ensures { result ≡ length_for (number_or key.now line.now right) }
{
    match number_or(line, key, right) {
        Some(length) => length as usize,
        None => UNREAD,
    }
}
