// A case line: the name of its call, and its fields by their keys.
ghost use Rattle.std.specs.Prelude.{◌≡◌};
ghost use Rattle.text_entries.specs.Entries.{same_bytes};
ghost use Rattle.case_text.specs.Fields.{is_case, call_name, words, has_key, value_in, any_field, first_field, FieldAt};

use crate::places::place_of;

// Whether two names have the same bytes.
pub fn same(a: &[u8], b: &[u8]) -> bool
    ensures { result ≡ same_bytes a.now b.now }
{
    a == b
}

// Whether a line is a case: it has bytes, and the first is no `#`.
pub fn is_case(line: &[u8]) -> bool
    ensures { result ≡ is_case line.now }
{
    if line.is_empty() {
        return false;
    }
    line[0] != b'#'
}

// The name of the line's call: what stands before the first space.
pub fn call_name<'a>(line: &'a [u8]) -> &'a [u8]
    ensures { result.now ≡ call_name line.now }
{
    let end = place_of(line, 0, b' ');
    &line[..end]
}

// Whether the line has a field with that key.
pub fn has_field(line: &[u8], key: &[u8]) -> bool
    ensures { result ≡ any_field key.now (words line.now) }
{
    find_field(line, key).is_some()
}

// The value of the line's first field with that key, or no bytes where there is none.
pub fn field<'a>(line: &'a [u8], key: &[u8]) -> &'a [u8]
    ensures { result.now ≡ first_field key.now (words line.now) }
{
    let Some(at) = find_field(line, key) else {
        return &line[..0];
    };
    let start = at + 1;
    let end = place_of(line, start, b' ');
    value_in(&line[start..end])
}

// The place of the space before the line's first field with that key.
fn find_field(line: &[u8], key: &[u8]) -> Option<usize>
    ensures { FieldAt key.now line.now result }
{
    let mut at = place_of(line, 0, b' ');
    // No `for`: a turn goes on from where the word before it ends.
    while at < line.len() {
        let start = at + 1;
        let end = place_of(line, start, b' ');
        if has_key(&line[start..end], key) {
            return Some(at);
        }
        at = end;
    }
    None
}

// Whether a word is a field with that key: the key, `=`, and a value.
fn has_key(word: &[u8], key: &[u8]) -> bool
    ensures { result ≡ has_key key.now word.now }
{
    let n = place_of(word, 0, b'=');
    if n == word.len() {
        return false;
    }
    same(&word[..n], key)
}

// The value in a field's word: what stands after the first `=`.
fn value_in<'a>(word: &'a [u8]) -> &'a [u8]
    ensures { result.now ≡ value_in word.now }
{
    let n = place_of(word, 0, b'=');
    if n == word.len() {
        return &word[..0];
    }
    let start = n + 1;
    &word[start..]
}
