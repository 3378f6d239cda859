// A sheet written from the lists of a grid's bays into a lent text, as far as it fits; and how many bytes it takes.
//
// Each function here that puts a part puts it at the place `at`, leaves the rest of the text as it is, and answers the next place: a
// writer struct would hold a lent `&mut` slice, whose loan every contract would have to tell.
#![tactic(auto)]

ghost use Rattle.std.specs.Prelude.{◌≡◌, true, ◌+◌, ◌*◌, ◌^◌, ◌<◌, ◌≤◌, length};
ghost use Rattle.text_put.specs.Puts.{Put};
ghost use Rattle.bay_lists.specs.Lists.{lists, offsets_shaped, constraints_of};
ghost use Rattle.sheet_text.specs.Written.{gap, spaced, separator, row_text, sheet_text};

mod lengths;

use bay_lists::Constraints;
pub use lengths::sheet_length;
use text_put::{put_number, put_text};

// The sheet of a grid.
pub fn put_sheet(
    rows: usize,
    columns: usize,
    offsets: &[usize],
    tiles: &[u32],
    text: &mut [u8],
) -> usize
    requires { offsets_shaped (rows * columns) (lists offsets.now tiles.now) ≡ true }
    ensures { Put text.old 0 (sheet_text (lists offsets.now tiles.now) columns 0 rows) result text.new }
{
    let lists = Constraints::Lists { offsets, tiles };
    let bays = rows * columns;
    let mut next = 0;
    for row in 0..rows {
        next = put_record(bays, &lists, row * columns, columns, text, next);
    }
    next
}

// The record of so many of a grid's bays from one on.
fn put_record(
    bays: usize,
    lists: &Constraints<'_>,
    first: usize,
    columns: usize,
    text: &mut [u8],
    at: usize,
) -> usize
    requires shaped { offsets_shaped bays (constraints_of lists.now) ≡ true }
    requires columns_bound { first + columns ≤ bays }
    requires at_in_bounds { at ≤ length text.old }
    ensures { Put text.old at (row_text (constraints_of lists.now) first columns) result text.new }
{
    let mut next = at;
    for column in 0..columns {
        let end = put_field(lists.bay_list(bays, first + column), text, next);
        next = put_text(text, end, separator(columns - column - 1));
    }
    next
}

// The numbers of a list with single spaces between them.
fn put_field(list: &[u32], text: &mut [u8], at: usize) -> usize
    requires { at ≤ length text.old }
    ensures { Put text.old at (spaced 0 list.now) result text.new }
{
    let mut next = at;
    for (i, &tile) in list.iter().enumerate() {
        let begin = put_text(text, next, gap(i));
        next = put_number(text, begin, u64::from(tile));
    }
    next
}

// What stands before the number at place i of a list: a space, unless it is the first.
fn gap(i: usize) -> &'static [u8]
    ensures { result.now ≡ gap i }
{
    if i == 0 { b"" } else { b" " }
}

// What stands between a field and the next one, or after the last of its record.
fn separator(left: usize) -> &'static [u8]
    ensures { result.now ≡ separator left }
{
    if left == 0 { b"\r\n" } else { b"," }
}
