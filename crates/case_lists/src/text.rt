// Text in a value: bytes that stand for themselves, and `%` with two hexadecimal digits for any other.
ghost use Rattle.std.specs.Prelude.{◌≡◌, ◌<◌, length};
ghost use Rattle.case_lists.specs.Lists.{counted, values, front};
ghost use Rattle.case_lists.specs.Text.{signs, is_sign, byte_of, plain_of, hidden_of, sign_of, SignEnds};

use case_text::{is_plain, whole};

// Writes the bytes of a text to the front of `out`, and answers how many they are. Where the text
// is unreadable, or longer than `out`, the bytes before the fault are written. Nothing else changes.
pub fn text_into(value: &[u8], out: &mut [u8]) -> Option<usize>
    ensures value { result ≡ counted is_sign (signs value.now) (length out.old) }
    ensures out_after { out.new ≡ front (values is_sign byte_of (signs value.now)) out.old }
{
    let mut at = 0;
    let mut n = 0;
    // No `for`: a sign is one byte or three, so each turn goes on from where the one before it ends.
    while at < value.len() {
        let end = sign_end(value, at);
        if out.len() <= n {
            return None;
        }
        out[n] = sign(&value[at..end])? as u8;
        n += 1;
        at = end;
    }
    Some(n)
}

// Where the sign that starts at `at` ends: three bytes on after a `%`, else one.
fn sign_end(value: &[u8], at: usize) -> usize
    requires { at < length value.now }
    ensures { SignEnds value.now at result }
{
    if value[at] != b'%' {
        return at + 1;
    }
    if value.len() - at < 3 {
        return value.len();
    }
    at + 3
}

// The byte that a sign stands for.
fn sign(part: &[u8]) -> Option<u64>
    ensures { result ≡ sign_of part.now }
{
    if part.len() == 1 {
        return plain(part[0]);
    }
    if part.len() != 3 {
        return None;
    }
    hidden(whole(&part[1..], 16))
}

// A byte by itself stands for itself, where it may.
#[tactic(auto, unfolding(crate::specs::Text::plain_of))]
fn plain(b: u8) -> Option<u64>
    ensures { result ≡ plain_of b }
{
    let n = b as u64;
    if is_plain(n) { Some(n) } else { None }
}

// A byte by its digits is one that cannot stand for itself, so that each text is written in one way.
#[tactic(auto, unfolding(crate::specs::Text::hidden_of))]
fn hidden(byte: Option<u64>) -> Option<u64>
    ensures { result ≡ hidden_of byte }
{
    let n = byte?;
    if is_plain(n) { None } else { Some(n) }
}
