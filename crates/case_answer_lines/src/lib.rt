// The writer of answer lines that the libraries of cases share: a refusal with its values, a word with a number or with floats.
// docs/CASES.md says what they look like; `text_put` says how a text is put.
#![tactic(auto)]

ghost use Rattle.std.specs.Prelude.{◌++◌};
ghost use Rattle.text_put.specs.Puts.{Put, number_text, float_text};
ghost use Rattle.case_answer_lines.specs.Lines.{unreadable_text, refused_text, tables_text};

pub use text_put::{put_float, put_number, put_signed, put_text};
use units::Refusal;

// A case that cannot be read.
pub fn unreadable(out: &mut [u8]) -> usize
    ensures { Put out.old 0 unreadable_text result out.new }
{
    put_text(out, 0, b"unreadable")
}

// A sign and a number after it.
pub fn put_value(out: &mut [u8], at: usize, sign: &[u8], value: usize) -> usize
    ensures { Put out.old at (sign.now ++ number_text value) result out.new }
{
    let next = put_text(out, at, sign);
    put_number(out, next, value as u64)
}

// `refused`, the number, and its values.
pub fn refused(out: &mut [u8], refusal: Refusal) -> usize
    ensures { Put out.old 0 (refused_text refusal) result out.new }
{
    let at = put_value(out, 0, b"refused ", refusal.number() as usize);
    match refusal {
        Refusal::Letter(first, second) | Refusal::Field(first, second) => {
            let next = put_value(out, at, b" ", first);
            put_value(out, next, b" ", second)
        }
        Refusal::Glue(value)
        | Refusal::Energy(value)
        | Refusal::Seed(value)
        | Refusal::Strand(value)
        | Refusal::NoLegalStrand(value)
        | Refusal::NoRoom(value)
        | Refusal::LoopLength(value)
        | Refusal::TooManyBases(value)
        | Refusal::Starred(value)
        | Refusal::UnknownSeed(value) => put_value(out, at, b" ", value),
        Refusal::Size
        | Refusal::Shape
        | Refusal::Tile
        | Refusal::TooManyRows
        | Refusal::BadSum
        | Refusal::TooFewLetters
        | Refusal::SequenceLength
        | Refusal::Unreadable => at,
    }
}

// A refusal, and whether the lent tables are as they were.
pub fn refused_with_tables(out: &mut [u8], refusal: Refusal, kept: bool) -> usize
    ensures { Put out.old 0 (refused_text refusal ++ tables_text kept) result out.new }
{
    let at = refused(out, refusal);
    if kept {
        return put_text(out, at, b" kept");
    }
    put_text(out, at, b" changed")
}

// Two floats with a sign before each.
pub fn put_floats(
    out: &mut [u8],
    at: usize,
    first_sign: &[u8],
    first: f64,
    second_sign: &[u8],
    second: f64,
) -> usize
    ensures { Put out.old at (first_sign.now ++ float_text first ++ second_sign.now ++ float_text second) result out.new }
{
    let word = put_text(out, at, first_sign);
    let next = put_float(out, word, first);
    let sign = put_text(out, next, second_sign);
    put_float(out, sign, second)
}
