// Sheets of records that all have the same number of fields, whatever stands in them: a test, and the places of fields.
#![tactic(auto)]

ghost use Rattle.std.specs.Prelude.{◌≡◌, ◌+◌, ◌^◌, ◌<◌, drop};
ghost use Rattle.sheet_fields.specs.Runs.{bytes_in};
ghost use Rattle.sheet_records.specs.Tables.{table_check, table_answer, first_width, record_at};

use sheet_fields::{Place, field_at, field_or_empty, goes_on};
use units::MOST_SIDE;

// How many records a sheet has that has exactly `width` sound fields in every record and at most `most` records; or the place
// of its first fault.
pub fn check_table(text: &[u8], width: usize, most: usize) -> Result<usize, Place>
    requires { (width < 2 ^ 32) × (most < 2 ^ 32) }
    ensures { result ≡ table_answer (table_check width most text.now) }
{
    let mut next = 0;
    for records in 0..most {
        if text.len() <= next {
            return Ok(records);
        }
        next = check_record(text, next, records + 1, width)?;
    }
    if next < text.len() {
        return Err(Place {
            line: most + 1,
            field: 1,
        });
    }
    Ok(most)
}

// The place after the record at a place, which is a line of its sheet, or the place of its first fault.
fn check_record(text: &[u8], at: usize, line: usize, width: usize) -> Result<usize, Place>
    requires { width < 2 ^ 32 }
    ensures { result ≡ record_at line width text.now at }
{
    let mut next = at;
    for i in 0..width {
        let number = i + 1;
        let Some(found) = field_at(text, next) else {
            return Err(Place {
                line,
                field: number,
            });
        };
        if !goes_on(found.more, width - number) {
            return Err(Place {
                line,
                field: number + 1,
            });
        }
        next = found.next;
    }
    Ok(next)
}

// How many fields the first record has, counted no further than one more than a grid has columns.
pub fn first_width(text: &[u8]) -> usize
    ensures { result ≡ first_width text.now }
{
    if text.is_empty() {
        return 0;
    }
    let mut next = 0;
    for width in 0..MOST_SIDE + 1 {
        let field = field_or_empty(text, next);
        if !field.more {
            return width + 1;
        }
        next = field.next;
    }
    MOST_SIDE + 1
}

// The place after so many fields from a place on.
pub fn place_after(text: &[u8], at: usize, count: usize) -> usize
    ensures { result ≡ at + bytes_in count (drop at text.now) }
{
    let mut next = at;
    for _ in 0..count {
        next = field_or_empty(text, next).next;
    }
    next
}
