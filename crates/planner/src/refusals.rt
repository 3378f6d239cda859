// The refusals of the rules as sentences: the number, the place as people count it, and what to mend.
use crate::bays::from_one;
use crate::line::Line;
use crate::messages::{Told, begin, finish, finish_stray, put_bay, put_field};
use crate::task::Extent;
use bay_system::Sizes;
use dna_single::check_single;
use plan_bay_names::front_bytes;
use sheet_fields::Place;
use sheet_names::put_content;
use sheet_records::place_after;
use text_fronts::front;
use text_plain::{first_stray, without_mark};
use units::Refusal;

// Says a refusal by its number alone.
fn say_number(folder: &[u8], refusal: Refusal, text: &[u8]) -> Told {
    let mut room = [0u8; 8192];
    let mut line = begin(&mut room, folder);
    line.put_with(b"refusal ", refusal.number() as usize);
    line.put(b": ");
    finish(&mut line, text)
}

// Says that a table of the system was refused, which none is that came this far.
pub(crate) fn say_tables(folder: &[u8], refusal: Refusal) -> Told {
    say_number(
        folder,
        refusal,
        b"the tables of the system do not fit each other",
    )
}

// Says what registering refused: a base too many by the field of its name, stars by their bay, or a size.
pub(crate) fn say_registering(folder: &[u8], refusal: Refusal, extent: &Extent) -> Told {
    match refusal {
        Refusal::TooManyBases(entry) => say_base(folder, entry, extent),
        Refusal::Starred(bay) => say_stars(folder, bay, extent.cols),
        _ => say_number(
            folder,
            refusal,
            b"the glue names of strands.csv and scaffold.csv take more than 16384 bytes; shorten them",
        ),
    }
}

// Says which name is one too many.
fn say_base(folder: &[u8], entry: usize, extent: &Extent) -> Told {
    let mut room = [0u8; 8192];
    let mut line = begin(&mut room, folder);
    line.put(b"refusal 15: ");
    put_entry(&mut line, entry, extent);
    line.put_with(b"entry ", entry);
    finish(
        &mut line,
        b" of the names, counted from 0, would be the 128th base, and 127 fit; use fewer different glues",
    )
}

// The field of a name: of a strand, or of the scaffold.
fn put_entry(line: &mut Line<'_>, entry: usize, extent: &Extent) {
    let first_bay = extent.records * 5;
    if entry < first_bay {
        let place = Place {
            line: entry / 5 + 1,
            field: entry % 5 + 3,
        };
        put_field(line, b"strands.csv", place);
    } else {
        line.put(b"scaffold.csv, ");
        put_bay(line, entry - first_bay, extent.cols);
        line.put(b": ");
    }
}

// Says which scaffold name has too many stars.
fn say_stars(folder: &[u8], bay: usize, cols: usize) -> Told {
    let mut room = [0u8; 8192];
    let mut line = begin(&mut room, folder);
    line.put(b"refusal 16: scaffold.csv, ");
    put_bay(&mut line, bay, cols);
    finish(
        &mut line,
        b": the name ends in two or more stars; write one for the inverse of a glue, or none",
    )
}

// Says what the energy keys refused: a letter, or how many there are, by the line of the sequence, or a size.
pub(crate) fn say_keys(folder: &[u8], refusal: Refusal, keys: &[u8], records: usize) -> Told {
    match refusal {
        Refusal::Letter(key, place) => say_letter(folder, key, place),
        Refusal::TooFewLetters => say_sequence(
            folder,
            b"refusal 12: ",
            bad_sequence(keys, records).unwrap_or(0),
            b"the sequence has fewer than 2 letters",
        ),
        Refusal::SequenceLength => say_sequence(
            folder,
            b"refusal 13: ",
            bad_sequence(keys, records).unwrap_or(0),
            b"the sequence has more than 256 letters",
        ),
        _ => say_number(
            folder,
            refusal,
            b"the glue names of strands.csv, scaffold.csv and energies.csv take more than 16384 bytes together; shorten them",
        ),
    }
}

// Says which letter is none.
fn say_letter(folder: &[u8], key: usize, place: usize) -> Told {
    let mut room = [0u8; 8192];
    let mut line = begin(&mut room, folder);
    line.put(b"refusal 11: ");
    put_field(
        &mut line,
        b"energies.csv",
        Place {
            line: from_one(key),
            field: 5,
        },
    );
    line.put_with(b"letter ", from_one(place));
    line.put_with(b" (key ", key);
    line.put_with(b", place ", place);
    finish(&mut line, b" counted from 0) is none of acgtACGT")
}

// Says what is wrong with the sequence of a line.
fn say_sequence(folder: &[u8], number: &[u8], row: usize, text: &[u8]) -> Told {
    let mut room = [0u8; 8192];
    let mut line = begin(&mut room, folder);
    line.put(number);
    put_field(
        &mut line,
        b"energies.csv",
        Place {
            line: row,
            field: 5,
        },
    );
    finish(&mut line, text)
}

// The first line whose sequence is refused.
fn bad_sequence(keys: &[u8], records: usize) -> Option<usize> {
    let mut at = 0;
    for row in 0..records {
        let field = place_after(keys, at, 4);
        if !is_sequence(keys, field) {
            return Some(row + 1);
        }
        at = place_after(keys, field, 1);
    }
    None
}

// Whether the field at a place is blank or a sequence that is not refused.
fn is_sequence(keys: &[u8], at: usize) -> bool {
    if keys.len() < at {
        return true;
    }
    let mut letters = [0u8; 300];
    let n = put_content(keys, at, &mut letters, 0);
    if n == 0 {
        return true;
    }
    check_single(front(&letters, n), 0).is_ok()
}

// Says what the seeds refused: a place that is off the grid, a name that no strand has, or a size.
pub(crate) fn say_seeds(folder: &[u8], refusal: Refusal, extent: &Extent, sheet: &[u8]) -> Told {
    match refusal {
        Refusal::Seed(seed) => say_off_grid(folder, seed, extent, sheet),
        Refusal::UnknownSeed(seed) => say_unnamed(folder, seed, sheet),
        _ => say_number(
            folder,
            refusal,
            b"seeds.csv: the names take more than 16384 bytes; shorten them",
        ),
    }
}

// Says which seed is off the grid.
fn say_off_grid(folder: &[u8], seed: usize, extent: &Extent, sheet: &[u8]) -> Told {
    let mut room = [0u8; 8192];
    let mut line = begin(&mut room, folder);
    line.put_with(b"refusal 4: seeds.csv, line ", from_one(seed));
    line.put(b": row ");
    put_shown(&mut line, sheet, seed, 0);
    line.put(b", column ");
    put_shown(&mut line, sheet, seed, 1);
    line.put_with(b" is off the grid, which has rows 1 to ", extent.rows);
    line.put_with(b" and columns 1 to ", extent.cols);
    line.put_with(b" (seed ", seed);
    finish(&mut line, b" counted from 0)")
}

// Says which seed has a name that no strand has.
fn say_unnamed(folder: &[u8], seed: usize, sheet: &[u8]) -> Told {
    let mut room = [0u8; 8192];
    let mut line = begin(&mut room, folder);
    line.put_with(b"refusal 18: seeds.csv, line ", from_one(seed));
    line.put_with(b", field 3 (seed ", seed);
    line.put(b" counted from 0): no strand is named ");
    put_shown(&mut line, sheet, seed, 2);
    finish(
        &mut line,
        b"; use a name of strands.csv, or null to keep the bay empty",
    )
}

// The content of a seed's field, of which the first 40 characters are shown.
fn put_shown(line: &mut Line<'_>, sheet: &[u8], seed: usize, column: usize) {
    let place = field_place(sheet, seed, column);
    let mut room = [0u8; 164];
    let mut content = Line::over(&mut room);
    content.put_content(sheet, place);
    let text = content.text();
    line.put(front(text, front_bytes(text, 40)));
}

// Where a field of a seed's record begins.
fn field_place(sheet: &[u8], seed: usize, column: usize) -> usize {
    let mut at = 0;
    for _ in 0..seed {
        at = place_after(sheet, at, 3);
    }
    place_after(sheet, at, column)
}

// Says what is wrong with the register's sheet: which field is none, and what it is that makes the whole sheet none.
pub(crate) fn say_lists(folder: &[u8], refusal: Refusal, sizes: &Sizes, lists: &[u8]) -> Told {
    let mut room = [0u8; 8192];
    let mut line = begin(&mut room, folder);
    let Refusal::Field(row, field) = refusal else {
        line.put_with(b"refusal ", refusal.number() as usize);
        line.put_with(b": constraints.csv has ", refusal.first());
        return finish(
            &mut line,
            b" numbers in its lists, and the planner has room for 65536; use the library",
        );
    };
    line.put(b"refusal 19: ");
    put_field(&mut line, b"constraints.csv", Place { line: row, field });
    if lists.is_empty() {
        return finish(
            &mut line,
            b"the sheet is empty; save it again (no restrictions are a blank field for each bay)",
        );
    }
    let stray = first_stray(lists);
    if stray < lists.len() {
        line.put(b"the sheet");
        return finish_stray(&mut line, stray);
    }
    if without_mark(lists).len() != lists.len() {
        return finish(
            &mut line,
            b"the sheet begins with a byte order mark, which is no number; save it without one",
        );
    }
    line.put_with(b"the sheet has ", sizes.rows);
    line.put_with(b" rows of ", sizes.cols);
    finish(
        &mut line,
        b" fields, and a field has plain strand numbers with single spaces between them, 0 alone to keep the bay empty, or nothing to leave it free",
    )
}
