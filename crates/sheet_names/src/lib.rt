// The contents of a sheet's fields as entries of one text: names that are laid one after the other, with the offsets between them.
//
// The tables stay parameters of their own, a text beside the place up to which it is written: a struct of them would hold lent `&mut`
// slices, whose loans every contract would have to tell.
#![tactic(auto)]

ghost use Rattle.std.specs.Prelude.{◌≡◌, [], ◌∷◌, ◌+◌, ◌*◌, ◌≤◌, ◌<◌, length, drop};
ghost use Rattle.text_put.specs.Puts.{Put};
ghost use Rattle.sheet_fields.specs.Fields.{content, unquoted};
ghost use Rattle.sheet_fields.specs.Runs.{contents};
ghost use Rattle.sheet_records.specs.Tables.{columns};
ghost use Rattle.sheet_names.specs.Appended.{Appended, flag_of, pair_step};
ghost use Rattle.sheet_names.specs.FrontFilled.{FrontFilled};

use sheet_fields::field_or_empty;
use sheet_records::place_after;
use text_put::put_text;

// The fields of each record that are read: so many from one on, counted from 0, of a record of `width` fields.
#[derive(Clone, Copy)]
pub struct Columns {
    pub width: usize,
    pub from: usize,
    pub count: usize,
}

// How many entries were laid, and how many bytes they take.
#[derive(Clone, Copy)]
pub struct Laid {
    pub entries: usize,
    pub bytes: usize,
}

// Appends columns of the records in reading order.
pub fn put_columns(
    text: &[u8],
    records: usize,
    wanted: Columns,
    out: &mut [u8],
    offsets: &mut [usize],
    present: &mut [u8],
    start: Laid,
) -> Laid
    requires bytes_in_bounds { start.bytes ≤ length out.old }
    requires from_in_bounds { start.entries + records * wanted.count < length offsets.old }
    requires from_in_bounds_2 { start.entries + records * wanted.count ≤ length present.old }
    ensures { Appended out.old offsets.old present.old start
        (columns records wanted.width wanted.from wanted.count text.now)
        result out.new offsets.new present.new }
{
    let mut stop = start;
    let mut next = 0;
    for _ in 0..records {
        let first = place_after(text, next, wanted.from);
        stop = put_fields(text, first, wanted.count, out, offsets, present, stop);
        next = place_after(text, next, wanted.width);
    }
    stop
}

// Puts columns of the records as the first entries of a text that has so many bytes, and answers where they end.
pub fn fill_columns(
    text: &[u8],
    records: usize,
    wanted: Columns,
    out: &mut [u8],
    bytes: usize,
    offsets: &mut [usize],
    present: &mut [u8],
) -> usize
    requires bytes_in_bounds { bytes ≤ length out.old }
    requires from_in_bounds { records * wanted.count < length offsets.old }
    requires from_in_bounds_2 { records * wanted.count ≤ length present.old }
    ensures { FrontFilled out.old offsets.old present.old bytes
        (columns records wanted.width wanted.from wanted.count text.now)
        result out.new offsets.new present.new }
{
    offsets[0] = bytes;
    let start = Laid { entries: 0, bytes };
    put_columns(text, records, wanted, out, offsets, present, start).bytes
}

// Appends so many fields from a place on.
fn put_fields(
    text: &[u8],
    at: usize,
    count: usize,
    out: &mut [u8],
    offsets: &mut [usize],
    present: &mut [u8],
    start: Laid,
) -> Laid
    requires at_in_bounds { at ≤ length text.now }
    requires bytes_in_bounds { start.bytes ≤ length out.old }
    requires count_in_bounds { start.entries + count < length offsets.old }
    requires count_in_bounds_2 { start.entries + count ≤ length present.old }
    ensures { Appended out.old offsets.old present.old start
        (contents count (drop at text.now))
        result out.new offsets.new present.new }
{
    let mut stop = start;
    let mut next = at;
    for _ in 0..count {
        let field = field_or_empty(text, next);
        stop = put_entry(field.raw(text), out, offsets, present, stop);
        next = field.next;
    }
    stop
}

// Appends what a field's bytes stand for.
fn put_entry(
    raw: &[u8],
    out: &mut [u8],
    offsets: &mut [usize],
    present: &mut [u8],
    start: Laid,
) -> Laid
    requires entries_in_bounds { start.entries + 1 < length offsets.old }
    requires entries_in_bounds_2 { start.entries < length present.old }
    ensures { Appended out.old offsets.old present.old start
        (unquoted raw.now ∷ [])
        result out.new offsets.new present.new }
{
    let bytes = put_unquoted(raw, out, start.bytes);
    let entries = start.entries + 1;
    present[start.entries] = flag(raw);
    offsets[entries] = bytes;
    Laid { entries, bytes }
}

// 1 where there are bytes, else 0.
#[tactic(auto, unfolding(crate::specs::Appended::flag_of))]
fn flag(raw: &[u8]) -> u8
    ensures { result ≡ flag_of raw.now }
{
    if raw.is_empty() { 0 } else { 1 }
}

// Puts the content of the field at a place, as far as it fits, and answers the next place.
pub fn put_content(text: &[u8], at: usize, out: &mut [u8], next: usize) -> usize
    ensures { Put out.old next (content (drop at text.now)) result out.new }
{
    put_unquoted(field_or_empty(text, at).raw(text), out, next)
}

// Puts a content byte by byte, one quote for two. A `for` over the bytes would be no plainer: turns pass one byte or two, so it needs a
// flag for the first of two quotes.
fn put_unquoted(raw: &[u8], out: &mut [u8], at: usize) -> usize
    ensures { Put out.old at (unquoted raw.now) result out.new }
{
    let mut next = at.min(out.len());
    let mut passed = 0;
    while passed < raw.len() {
        next = put_text(out, next, &[raw[passed]]);
        passed += pair_step(&raw[passed..]);
    }
    next
}

// How many bytes stand for the first one: two quotes side by side stand for one.
#[tactic(auto, unfolding(crate::specs::Appended::pair_step))]
fn pair_step(rest: &[u8]) -> usize
    ensures { result ≡ pair_step rest.now }
{
    match rest {
        [b'"', b'"', ..] => 2,
        _ => 1,
    }
}
