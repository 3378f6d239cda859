// Whether a sheet is a table, and what is said where it is none.
ghost use Rattle.std.specs.Prelude.{◌^◌, ◌≤◌, ◌<◌, IfOk};

use crate::messages::{Told, begin, finish, say_field, say_file};
use sheet_records::check_table;

// What is said of a sheet that is no table: its name, and what is wrong where it has too many records, with the refusal that these are, or where a
// record is none.
#[derive(Clone, Copy)]
pub(crate) struct Form<'a> {
    pub(crate) sheet: &'a [u8],
    pub(crate) refusal: &'a [u8],
    pub(crate) many: &'a [u8],
    pub(crate) record: &'a [u8],
}

// How many records a sheet has, all of them of so many fields, and no more than so many.
#[tactic(auto, using(sheet_records::proofs::Tables::answer_few))]
pub(crate) fn records_of(
    folder: &[u8],
    text: &[u8],
    width: usize,
    most: usize,
    form: &Form<'_>,
) -> Result<usize, Told>
    requires { (width < 2 ^ 32) × (most < 2 ^ 32) }
    ensures { IfOk result (λ n. n ≤ most) }
{
    match check_table(text, width, most) {
        Ok(0) => Err(say_file(folder, form.sheet, b" has no record")),
        Ok(records) => Ok(records),
        Err(place) if most < place.line => Err(say_many(folder, place.line, form)),
        Err(place) => Err(say_field(folder, form.sheet, place, form.record)),
    }
}

// Says that there are too many records.
fn say_many(folder: &[u8], row: usize, form: &Form<'_>) -> Told {
    let mut room = [0u8; 8192];
    let mut line = begin(&mut room, folder);
    line.put(form.refusal);
    line.put(form.sheet);
    line.put_with(b", line ", row);
    line.put(b": ");
    finish(&mut line, form.many)
}
