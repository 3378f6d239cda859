// A sheet over a grid of bays: a test of all of its fields, field by field from the front.
#![tactic(auto)]

ghost use Rattle.std.specs.Prelude.{◌≡◌, ◌≤◌};
ghost use Rattle.units.specs.Limits.{most_side};
ghost use Rattle.sheet_cells.specs.Checks.{sheet_check};

mod cells;

use cells::check_record;
use units::Refusal;

// How many numbers a sheet has; or refusal 19, with the line and the number of the first field that is bad, missing or surplus.
pub fn check_sheet(text: &[u8], rows: usize, columns: usize) -> Result<usize, Refusal>
    requires { (rows ≤ most_side) × (columns ≤ most_side) }
    ensures { result ≡ sheet_check rows columns text.now }
{
    let mut next = 0;
    let mut count = 0;
    for row in 0..rows {
        let record = check_record(text, next, row + 1, columns)?;
        next = record.next;
        count += record.count;
    }
    if next < text.len() {
        return Err(Refusal::Field(rows + 1, 1));
    }
    Ok(count)
}
