// How many bytes a sheet takes that is written from the lists of a grid's bays, or the largest usize where it takes more.
//
// Sums stop at the largest usize as they grow, so nothing wraps, and what is answered is the whole sum stopped there.
ghost use Rattle.std.specs.Prelude.{◌≡◌, true, ◌++◌, ◌+◌, ◌*◌, ◌^◌, ◌<◌, ◌≤◌, length};
ghost use Rattle.text_put.specs.Puts.{number_text};
ghost use Rattle.bay_lists.specs.Lists.{lists, offsets_shaped, constraints_of};
ghost use Rattle.sheet_text.specs.Written.{gap, spaced, row_text, sheet_text};
ghost use Rattle.sheet_text.specs.Lengths.{capped};

use crate::{gap, separator};
use bay_lists::Constraints;

// The bytes of a grid's sheet.
pub fn sheet_length(rows: usize, columns: usize, offsets: &[usize], tiles: &[u32]) -> usize
    requires { offsets_shaped (rows * columns) (lists offsets.now tiles.now) ≡ true }
    ensures { result ≡ capped (length (sheet_text (lists offsets.now tiles.now) columns 0 rows)) }
{
    let lists = Constraints::Lists { offsets, tiles };
    let bays = rows * columns;
    let mut total: usize = 0;
    for row in 0..rows {
        total = total.saturating_add(record_length(bays, &lists, row * columns, columns));
    }
    total
}

// The bytes of the record of so many of a grid's bays from one on.
fn record_length(bays: usize, lists: &Constraints<'_>, first: usize, columns: usize) -> usize
    requires shaped { offsets_shaped bays (constraints_of lists.now) ≡ true }
    requires columns_bound { first + columns ≤ bays }
    ensures { result ≡ capped (length (row_text (constraints_of lists.now) first columns)) }
{
    let mut total: usize = 0;
    for column in 0..columns {
        let field = field_length(lists.bay_list(bays, first + column));
        let end = separator(columns - column - 1).len();
        total = total.saturating_add(field.saturating_add(end));
    }
    total
}

// The bytes of a list's numbers with single spaces between them.
fn field_length(list: &[u32]) -> usize
    ensures { result ≡ capped (length (spaced 0 list.now)) }
{
    let mut total: usize = 0;
    for (i, &tile) in list.iter().enumerate() {
        total = total.saturating_add(number_length(i, u64::from(tile)));
    }
    total
}

// The bytes of the number at place i of a list, with the space before it.
fn number_length(i: usize, n: u64) -> usize
    ensures { result ≡ length (gap i ++ number_text n) }
{
    gap(i).len() + digit_count(n)
}

// How many decimal digits a number has.
fn digit_count(n: u64) -> usize
    ensures value { result ≡ length (number_text n) }
    ensures upper_bound { result ≤ 20 }
{
    let mut digits = [0u8; 20];
    io::decimal(n, &mut digits)
}
