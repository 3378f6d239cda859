// What is tested before registering: sizes and lengths, and whether the names can be read.
#![tactic(auto)]

ghost use Rattle.std.specs.Prelude.{◌≡◌, ◌≤◌};
ghost use Rattle.units.specs.Limits.{most_strands};
ghost use Rattle.name_glues.specs.Names.{names_of};
ghost use Rattle.name_register_input.specs.Input.{sizes_in_range, tables_fit, request, input_verdict};

use text_entries::Names;
use units::{BASE_NUMBERS, MOST_SIDE, MOST_STRANDS, Refusal, from_one_to};

// Whether rows, columns and strands are in their ranges.
fn sizes_in_range(rows: usize, cols: usize, strands: usize) -> bool
    ensures { result ≡ sizes_in_range rows cols strands }
{
    from_one_to(MOST_SIDE, rows)
        && from_one_to(MOST_SIDE, cols)
        && from_one_to(MOST_STRANDS, strands)
}

// Whether the lent tables have their lengths.
fn tables_fit(glues: usize, scaffold: usize, bases: usize, strands: usize, bays: usize) -> bool
    requires { strands ≤ most_strands }
    ensures { result ≡ tables_fit glues scaffold bases strands bays }
{
    glues == strands * 5 && scaffold == bays && bases == BASE_NUMBERS
}

// What is refused before registering: a size or a length, then names that cannot be read.
pub fn check_input(
    rows: usize,
    cols: usize,
    strands: usize,
    names: &Names<'_>,
    glues: usize,
    scaffold: usize,
    bases: usize,
) -> Result<(), Refusal>
    ensures { let q = request rows cols strands (names_of names.now) glues scaffold bases in
        result ≡ input_verdict q }
{
    if !sizes_in_range(rows, cols, strands) {
        return Err(Refusal::Size);
    }
    let bays = rows * cols;
    let entries = (strands - 1) * 5 + bays;
    if !(names.sized(entries) && tables_fit(glues, scaffold, bases, strands, bays)) {
        return Err(Refusal::Size);
    }
    if !names.formed() {
        return Err(Refusal::Unreadable);
    }
    Ok(())
}
