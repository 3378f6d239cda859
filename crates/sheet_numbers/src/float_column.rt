// Columns of decimals and of logarithms.
ghost use Rattle.std.specs.Prelude.{◌≡◌, ◌≤◌, map, length, drop};
ghost use Rattle.std.proofs.lemmas.List.Edits.{sets};
ghost use Rattle.sheet_fields.specs.Fields.{content};
ghost use Rattle.sheet_records.specs.Tables.{columns};
ghost use Rattle.sheet_numbers.specs.Faults.{first_fault, fault_or};
ghost use Rattle.sheet_numbers.specs.Floats.{read_as, is_read, value_as};
ghost use Rattle.sheet_numbers.specs.declared.float_column.Kind.TheVariants.{Decimals, DecimalsOrBlanks};

use sheet_fields::field_or_empty;
use sheet_records::place_after;
use text_decimals::{decimal, logarithm};

// How a column is read: as decimals, as decimals of which a blank is 0.0, or as logarithms, of which `-inf` is one.
#[derive(Clone, Copy)]
pub enum Kind {
    Decimals,
    DecimalsOrBlanks,
    Logarithms,
}

// Reads a column of a kind, 0.0 for a field that is none, and answers the first line of such a field.
pub fn put_floats(
    text: &[u8],
    records: usize,
    width: usize,
    column: usize,
    kind: Kind,
    out: &mut [f64],
) -> Option<usize>
    requires { records ≤ length out.old }
    ensures value { result ≡ first_fault 1 (map (is_read kind) (columns records width column 1 text.now)) }
    ensures out_after { out.new ≡ sets out.old 0 (map (value_as kind) (columns records width column 1 text.now)) }
{
    let mut fault = None;
    let mut next = 0;
    for i in 0..records {
        let first = place_after(text, next, column);
        let read = float_at(text, first, kind);
        out[i] = read.unwrap_or(0.0);
        fault = fault_or(fault, read.is_some(), i + 1);
        next = place_after(text, next, width);
    }
    fault
}

// The fault that was found, or a line that is not sound.
#[tactic(auto, unfolding(crate::specs::Faults::fault_or))]
fn fault_or(fault: Option<usize>, sound: bool, line: usize) -> Option<usize>
    ensures { result ≡ fault_or fault sound line }
{
    match fault {
        Some(_) => fault,
        None if sound => None,
        None => Some(line),
    }
}

// Reads the field at a place as a decimal, no blank.
pub fn decimal_at(text: &[u8], at: usize) -> Option<f64>
    ensures { result ≡ read_as Decimals (content (drop at text.now)) }
{
    float_at(text, at, Kind::Decimals)
}

// Reads the field at a place: a quote is no part of a number, so its bytes are read as they stand.
fn float_at(text: &[u8], at: usize, kind: Kind) -> Option<f64>
    ensures { result ≡ read_as kind (content (drop at text.now)) }
{
    read_as(kind, field_or_empty(text, at).raw(text))
}

// Reads a text as a column's fields are read.
#[tactic(auto, unfolding(crate::specs::Floats::read_as))]
fn read_as(kind: Kind, text: &[u8]) -> Option<f64>
    ensures { result ≡ read_as kind text.now }
{
    match kind {
        Kind::Decimals => decimal(text),
        Kind::DecimalsOrBlanks => decimal_or_blank(text),
        Kind::Logarithms => logarithm(text),
    }
}

// Reads a decimal, of which a blank is 0.0.
fn decimal_or_blank(text: &[u8]) -> Option<f64>
    ensures { result ≡ read_as DecimalsOrBlanks text.now }
{
    if text.is_empty() {
        return Some(0.0);
    }
    decimal(text)
}
