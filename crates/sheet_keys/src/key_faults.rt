// The first record of a sheet that is no key.
ghost use Rattle.std.specs.Prelude.{◌≡◌, cond, ◌≤◌, length, drop, Some, None};
ghost use Rattle.sheet_fields.specs.Fields.{content};
ghost use Rattle.sheet_fields.specs.Runs.{contents};
ghost use Rattle.sheet_keys.specs.SheetKeys.{is_blank, fits, key_fault, keys_fault};

use sheet_fields::{Place, field_or_empty};
use sheet_numbers::decimal_at;
use sheet_records::place_after;

// Tests the records of a sheet one by one: the first that is no key is refused by the field that shows it.
pub fn check_keys(sheet: &[u8], records: usize) -> Result<(), Place>
    ensures { result ≡ keys_fault records sheet.now }
{
    let mut next = 0;
    for i in 0..records {
        if let Some(field) = key_fault(sheet, next) {
            return Err(Place { line: i + 1, field });
        }
        next = place_after(sheet, next, 5);
    }
    Ok(())
}

// The number of the field that shows the record at a place to be no key.
fn key_fault(sheet: &[u8], at: usize) -> Option<usize>
    ensures { result ≡ key_fault (contents 5 (drop at sheet.now)) }
{
    let nameless = is_blank(sheet, at);
    let sequence = place_after(sheet, at, 4);
    let numbers = is_blank(sheet, sequence);
    let first = place_after(sheet, at, 2);
    let first_fits = fits(sheet, first, numbers);
    let second = place_after(sheet, at, 3);
    let second_fits = fits(sheet, second, numbers);
    fault_of(nameless, first_fits, second_fits)
}

// Which field is at fault: the first name, the first number or the second.
fn fault_of(nameless: bool, first_fits: bool, second_fits: bool) -> Option<usize>
    ensures { result ≡ cond nameless (Some 1) (cond first_fits (cond second_fits None (Some 4)) (Some 3)) }
{
    if nameless {
        return Some(1);
    }
    if !first_fits {
        return Some(3);
    }
    if !second_fits {
        return Some(4);
    }
    None
}

// Whether the field at a place is a decimal where numbers are to be given, and blank where none are.
#[tactic(auto, unfolding(crate::specs::SheetKeys::fits))]
fn fits(sheet: &[u8], at: usize, numbers: bool) -> bool
    ensures { result ≡ fits numbers (content (drop at sheet.now)) }
{
    if numbers {
        decimal_at(sheet, at).is_some()
    } else {
        is_blank(sheet, at)
    }
}

// Whether the field at a place has no bytes.
fn is_blank(sheet: &[u8], at: usize) -> bool
    ensures { result ≡ is_blank (content (drop at sheet.now)) }
{
    field_or_empty(sheet, at).raw(sheet).is_empty()
}
