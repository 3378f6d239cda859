// The fields of a sheet one by one, and the fields of one record.
ghost use Rattle.std.specs.Prelude.{◌≡◌, ◌≤◌, length};
ghost use Rattle.units.specs.Limits.{most_side};
ghost use Rattle.sheet_cells.specs.Checks.{cell_at, record_at};

use sheet_fields::{field_at, goes_on};
use sheet_number_lists::count_numbers;
use units::Refusal;

// A field of a sheet with a list for its content: whether its record goes on, the place after it, and how many numbers it has. All
// three count always, so this is no Option.
#[derive(Clone, Copy)]
struct Cell {
    more: bool,
    next: usize,
    count: usize,
}

// A record of a sheet without a fault: the place after it, and how many numbers it has.
#[derive(Clone, Copy)]
pub(crate) struct Record {
    pub(crate) next: usize,
    pub(crate) count: usize,
}

// Tests the record at a place, which is a line of the sheet: of one that is missing the first field is.
pub(crate) fn check_record(
    text: &[u8],
    at: usize,
    line: usize,
    columns: usize,
) -> Result<Record, Refusal>
    requires { (at ≤ length text.now) × (columns ≤ most_side) }
    ensures { result ≡ record_at line columns text.now at }
{
    if text.len() <= at {
        return Err(Refusal::Field(line, 1));
    }
    let mut next = at;
    let mut count = 0;
    for i in 0..columns {
        let number = i + 1;
        let Some(cell) = cell_at(text, next) else {
            return Err(Refusal::Field(line, number));
        };
        if !goes_on(cell.more, columns - number) {
            return Err(Refusal::Field(line, number + 1));
        }
        next = cell.next;
        count += cell.count;
    }
    Ok(Record { next, count })
}

// The field at a place, where it has a list.
fn cell_at(text: &[u8], at: usize) -> Option<Cell>
    ensures { result ≡ cell_at text.now at }
{
    let field = field_at(text, at)?;
    let count = count_numbers(field.raw(text))?;
    Some(Cell {
        more: field.more,
        next: field.next,
        count,
    })
}
