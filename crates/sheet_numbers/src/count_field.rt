// A row or a column of a grid as people count it, from 1, read as counted from 0.
ghost use Rattle.std.specs.Prelude.{◌≡◌, ◌≤◌, length, drop};
ghost use Rattle.sheet_fields.specs.Fields.{content};
ghost use Rattle.sheet_numbers.specs.Counts.{count_of};

use sheet_fields::field_or_empty;
use sheet_number_lists::plain_number;

// Reads the field at a place: a quote is no part of a number, so its bytes are read as they stand.
pub fn count_at(text: &[u8], at: usize) -> Option<usize>
    ensures { result ≡ count_of (content (drop at text.now)) }
{
    count_of(field_or_empty(text, at).raw(text))
}

// A number from 1 on, counted from 0.
fn count_of(word: &[u8]) -> Option<usize>
    ensures { result ≡ count_of word.now }
{
    let number = plain_number(word)? as usize;
    number.checked_sub(1)
}
