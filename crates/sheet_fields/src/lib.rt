// Records and fields of comma-separated text after RFC 4180.
//
// A record is a line of fields with commas between them; a field is bare or in quotes. A line ends with CR LF, with LF
// alone, or with the text. Nothing is copied: a field is told by its places in the caller's own text.
#![tactic(auto)]

ghost use Rattle.std.specs.Prelude.{◌≡◌, cond, ◌+◌, ◌-◌, ◌<◌, eqb, ltb, length, take, drop};
ghost use Rattle.sheet_fields.specs.Fields.{is_plain, plain_length, quoted_length, ending_of, bare_field, quoted_field, moved, field_at};
ghost use Rattle.sheet_fields.specs.Scan.{quoted_step};
ghost use Rattle.sheet_fields.specs.Answers.{ending_answer, field_answer, places};

use text_fronts::{byte_at, front};

// A field of a sheet by its line and its number in it, both from 1.
#[derive(Clone, Copy, PartialEq, Eq)]
pub struct Place {
    pub line: usize,
    pub field: usize,
}

// How a sound field ends: whether more fields of its record come, and how many bytes the end takes. Both count always, so this is
// no Option.
#[derive(Clone, Copy)]
struct Ending {
    more: bool,
    width: usize,
}

// A field: whether its record goes on, its content from one place to another, and the place after it. The places count whether it
// goes on or not, so this is no Option.
#[derive(Clone, Copy)]
pub struct Field {
    pub more: bool,
    pub from: usize,
    pub to: usize,
    pub next: usize,
}

impl Field {
    // Its bytes as they stand in the text, quotes within its quotes doubled, and none of them past the text's end.
    pub fn raw<'a>(&self, text: &'a [u8]) -> &'a [u8]
        ensures { result.now ≡ take (self.now.to - self.now.from) (drop self.now.from text.now) }
    {
        front(rest(text, self.from), self.to.saturating_sub(self.from))
    }
}

// The field at a place of a text, none where it is not sound.
pub fn field_at(text: &[u8], at: usize) -> Option<Field>
    ensures { result ≡ field_answer (field_at text.now at) }
{
    if byte_at(text, at) == b'"' {
        quoted_field(text, at)
    } else {
        bare_field(text, at)
    }
}

// The field at a place; where none is sound one without content that goes no further than its start.
pub fn field_or_empty(text: &[u8], at: usize) -> Field
    ensures { result ≡ places (field_at text.now at) }
{
    field_at(text, at).unwrap_or(Field {
        more: false,
        from: at,
        to: at,
        next: at,
    })
}

// A field without quotes: plain bytes up to its end.
fn bare_field(text: &[u8], at: usize) -> Option<Field>
    ensures { result ≡ field_answer (moved at (bare_field (drop at text.now))) }
{
    let field = rest(text, at);
    let length = plain_length(field);
    let ending = ending_of(&field[length..])?;
    let to = at + length;
    Some(Field {
        more: ending.more,
        from: at,
        to,
        next: to + ending.width,
    })
}

// A field in quotes: everything up to the quote that closes it, and then its end.
fn quoted_field(text: &[u8], at: usize) -> Option<Field>
    requires { at < length text.now }
    ensures { result ≡ field_answer (moved at (quoted_field (drop at text.now))) }
{
    let from = at + 1;
    let to = from + quoted_length(rest(text, from));
    if byte_at(text, to) != b'"' {
        return None;
    }
    let close = to + 1;
    let ending = ending_of(rest(text, close))?;
    Some(Field {
        more: ending.more,
        from,
        to,
        next: close + ending.width,
    })
}

// The bytes from a place on, none past the end.
fn rest<'a>(text: &'a [u8], at: usize) -> &'a [u8]
    ensures { result.now ≡ drop at text.now }
{
    text.get(at..).unwrap_or(&[])
}

// How a field ends before some bytes.
#[tactic(auto, using(crate::proofs::Scanning::ending_by))]
fn ending_of(rest: &[u8]) -> Option<Ending>
    ensures { result ≡ ending_answer (ending_of rest.now) }
{
    match rest {
        [] => Some(Ending {
            more: false,
            width: 0,
        }),
        [b',', ..] => Some(Ending {
            more: true,
            width: 1,
        }),
        [b'\n', ..] => Some(Ending {
            more: false,
            width: 1,
        }),
        [b'\r', b'\n', ..] => Some(Ending {
            more: false,
            width: 2,
        }),
        _ => None,
    }
}

// How many plain bytes a text begins with.
#[tactic(auto, using(crate::proofs::Scanning::plain_is))]
fn plain_length(text: &[u8]) -> usize
    ensures { result ≡ plain_length text.now }
{
    text.iter()
        .position(|b| !is_plain(*b))
        .unwrap_or(text.len())
}

// Whether a byte can stand in a field without quotes.
#[tactic(auto, unfolding(crate::specs::Fields::is_plain))]
fn is_plain(b: u8) -> bool
    ensures { result ≡ is_plain b }
{
    !matches!(b, b',' | b'"' | b'\r' | b'\n')
}

// How many bytes stand before the quote that closes a field. Two quotes side by side close nothing. A `for` over the bytes would be
// no plainer: turns pass one byte or two, so it needs a flag for the first of two quotes.
fn quoted_length(text: &[u8]) -> usize
    ensures { result ≡ quoted_length text.now }
{
    let mut passed = 0;
    loop {
        let step = quoted_step(&text[passed..]);
        if step == 0 {
            return passed;
        }
        passed += step;
    }
}

// How many bytes a turn within quotes passes, none at the quote that closes and at the end.
#[tactic(auto, using(crate::proofs::Scanning::step_by))]
fn quoted_step(rest: &[u8]) -> usize
    ensures { result ≡ quoted_step rest.now }
{
    match rest {
        [] => 0,
        [b'"', b'"', ..] => 2,
        [b'"', ..] => 0,
        _ => 1,
    }
}

// Whether a record goes on, or ends, as the number of the fields left behind a field says.
pub fn goes_on(more: bool, left: usize) -> bool
    ensures { result ≡ cond more (ltb 0 left) (eqb left 0) }
{
    more == (0 < left)
}
