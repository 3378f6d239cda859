// What the seeds' sheet tells, a record of three fields for each seed: its row and its column, counted from 1, and its name.
#![tactic(auto)]

ghost use Rattle.std.specs.Prelude.{◌≡◌, ◌*◌, ◌≤◌, ◌<◌, length};
ghost use Rattle.std.proofs.lemmas.List.Edits.{sets};
ghost use Rattle.sheet_names.specs.FrontFilled.{FrontFilled};
ghost use Rattle.sheet_seeds.specs.Seeds.{places_of, place_fault, seed_names, first_found};

use sheet_fields::Place;
use sheet_names::{Columns, fill_columns};
use sheet_numbers::count_at;
use sheet_records::place_after;

// Puts the row and the column of each seed, counted from 0, one seed after the other; 0 is put for a field that is none. The first
// of these is refused.
pub fn put_places(sheet: &[u8], records: usize, places: &mut [usize]) -> Result<(), Place>
    requires { 2 * records ≤ length places.old }
    ensures value { result ≡ place_fault records sheet.now }
    ensures places_after { places.new ≡ sets places.old 0 (places_of records sheet.now) }
{
    let mut fault = Ok(());
    let mut next = 0;
    for i in 0..records {
        let second = place_after(sheet, next, 1);
        let row = count_at(sheet, next);
        let column = count_at(sheet, second);
        places[i * 2] = row.unwrap_or(0);
        places[i * 2 + 1] = column.unwrap_or(0);
        fault = first_fault(fault, row.is_some(), column.is_some(), i + 1);
        next = place_after(sheet, next, 3);
    }
    fault
}

// Keeps the first fault that was found: of one line the row is told before the column.
#[tactic(auto, unfolding(crate::specs::Seeds::first_found))]
fn first_fault(fault: Result<(), Place>, row: bool, column: bool, line: usize) -> Result<(), Place>
    ensures { result ≡ first_found fault row column line }
{
    fault?;
    if !row {
        return Err(Place { line, field: 1 });
    }
    if !column {
        return Err(Place { line, field: 2 });
    }
    Ok(())
}

// Puts the names of the seeds and answers how many bytes they take.
#[tactic(auto, unfolding(crate::specs::Seeds::seed_names))]
pub fn put_seed_names(
    sheet: &[u8],
    records: usize,
    text: &mut [u8],
    offsets: &mut [usize],
    present: &mut [u8],
) -> usize
    requires records_in_bounds { records < length offsets.old }
    requires records_in_bounds_2 { records ≤ length present.old }
    ensures { FrontFilled text.old offsets.old present.old 0 (seed_names records sheet.now)
        result text.new offsets.new present.new }
{
    let names = Columns {
        width: 3,
        from: 2,
        count: 1,
    };
    fill_columns(sheet, records, names, text, 0, offsets, present)
}
