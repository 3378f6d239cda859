// The tables that energy keys are taken from.
//
// They stay parameters of their own: a struct of them would hold lent `&mut` slices, whose loans every contract would have to tell.
ghost use Rattle.std.specs.Prelude.{◌≡◌, map, ◌*◌, ◌≤◌, ◌<◌, length};
ghost use Rattle.std.proofs.lemmas.List.Edits.{sets};
ghost use Rattle.sheet_records.specs.Tables.{columns};
ghost use Rattle.sheet_names.specs.Appended.{flag_of};
ghost use Rattle.sheet_names.specs.FrontFilled.{FrontFilled};
ghost use Rattle.sheet_keys.specs.SheetKeys.{number, seconds};

use sheet_names::{Columns, fill_columns};
use sheet_numbers::decimal_at;
use sheet_records::place_after;

// How many bytes the names end at, and how many the sequences take.
#[derive(Clone, Copy)]
pub struct KeyTexts {
    pub names: usize,
    pub sequences: usize,
}

// Reads the keys of a sheet: key k's names are the entries 2k and 2k + 1 of `text`, appended after `bytes` bytes, `paired` is 1 where it
// has a second one, its numbers are 2k and 2k + 1, and its sequence is entry k of `sequences`, its kind 1 where it has one.
pub fn put_keys(
    sheet: &[u8],
    records: usize,
    text: &mut [u8],
    bytes: usize,
    offsets: &mut [usize],
    present: &mut [u8],
    paired: &mut [u8],
    kinds: &mut [u8],
    numbers: &mut [f64],
    sequences: &mut [u8],
    sequence_offsets: &mut [usize],
) -> KeyTexts
    requires bytes_in_bounds { bytes ≤ length text.old }
    requires records_in_bounds { records * 2 < length offsets.old }
    requires records_in_bounds_2 { records * 2 ≤ length present.old }
    requires records_in_bounds_3 { records ≤ length paired.old }
    requires records_in_bounds_4 { records ≤ length kinds.old }
    requires records_in_bounds_5 { records * 2 ≤ length numbers.old }
    requires records_in_bounds_6 { records < length sequence_offsets.old }
    ensures names { FrontFilled text.old offsets.old present.old bytes (columns records 5 0 2 sheet.now)
        result.names text.new offsets.new present.new }
    ensures seconds { paired.new ≡ sets paired.old 0 (map flag_of (columns records 5 1 1 sheet.now)) }
    ensures numbers { numbers.new ≡ sets numbers.old 0 (map number (columns records 5 2 2 sheet.now)) }
    ensures sequences { FrontFilled sequences.old sequence_offsets.old kinds.old 0 (columns records 5 4 1 sheet.now)
        result.sequences sequences.new sequence_offsets.new kinds.new }
{
    let pairs = Columns {
        width: 5,
        from: 0,
        count: 2,
    };
    let last = Columns {
        width: 5,
        from: 4,
        count: 1,
    };
    let names = fill_columns(sheet, records, pairs, text, bytes, offsets, present);
    put_seconds(present, records, paired);
    put_numbers(sheet, records, numbers);
    let sequences = fill_columns(sheet, records, last, sequences, 0, sequence_offsets, kinds);
    KeyTexts { names, sequences }
}

// Puts the second of every two flags.
fn put_seconds(present: &[u8], records: usize, paired: &mut [u8])
    requires records_in_bounds { records * 2 ≤ length present.now }
    requires records_in_bounds_2 { records ≤ length paired.old }
    ensures { paired.new ≡ sets paired.old 0 (seconds records present.now) }
{
    for i in 0..records {
        paired[i] = present[i * 2 + 1];
    }
}

// Puts the two numbers of each record, 0.0 for a field that is none.
fn put_numbers(sheet: &[u8], records: usize, numbers: &mut [f64])
    requires { records * 2 ≤ length numbers.old }
    ensures { numbers.new ≡ sets numbers.old 0 (map number (columns records 5 2 2 sheet.now)) }
{
    let mut next = 0;
    for i in 0..records {
        let first = place_after(sheet, next, 2);
        let second = place_after(sheet, next, 3);
        let dg = decimal_at(sheet, first);
        let ds = decimal_at(sheet, second);
        numbers[i * 2] = dg.unwrap_or(0.0);
        numbers[i * 2 + 1] = ds.unwrap_or(0.0);
        next = place_after(sheet, next, 5);
    }
}
