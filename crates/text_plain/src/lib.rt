// Whether bytes are a text: UTF-8 after RFC 3629, without the characters that XML does not allow and without control
// characters other than tab, line feed and carriage return.
#![tactic(auto)]

ghost use Rattle.std.specs.Prelude.{◌≡◌};
ghost use Rattle.text_plain.specs.Texts.{is_between, is_alone, is_second, is_two, is_third, is_three, is_four, character_length, first_stray, has_mark, without_mark};

use text_fronts::byte_at;

// The place of the first byte that is no part of a text, or the length where all are.
pub fn first_stray(text: &[u8]) -> usize
    ensures { result ≡ first_stray text.now }
{
    let mut i = 0;
    while i < text.len() {
        let n = character_length(&text[i..]);
        if n == 0 {
            return i;
        }
        i += n;
    }
    i
}

// The text without a byte order mark at its front.
pub fn without_mark<'a>(text: &'a [u8]) -> &'a [u8]
    ensures { result.now ≡ without_mark text.now }
{
    if has_mark(text) {
        return &text[3..];
    }
    text
}

// Whether a text begins with a byte order mark.
fn has_mark(text: &[u8]) -> bool
    ensures { result ≡ has_mark text.now }
{
    (byte_at(text, 0) == 0xEF) & ((byte_at(text, 1) == 0xBB) & (byte_at(text, 2) == 0xBF))
}

// How many bytes the character at the front of a text takes, 0 where none stands there.
fn character_length(text: &[u8]) -> usize
    ensures { result ≡ character_length text.now }
{
    let first = byte_at(text, 0);
    if is_alone(first) {
        return 1;
    }
    let second = byte_at(text, 1);
    if is_two(first, second) {
        return 2;
    }
    let third = byte_at(text, 2);
    if is_three(first, second, third) {
        return 3;
    }
    let fourth = byte_at(text, 3);
    if is_four(first, second, third, fourth) {
        return 4;
    }
    0
}

// Whether a byte is a character by itself.
fn is_alone(b: u8) -> bool
    ensures { result ≡ is_alone b }
{
    (b == b'\t') | ((b == b'\n') | ((b == b'\r') | is_between(b, 0x20, 0x7E)))
}

// Whether two bytes are a character.
fn is_two(a: u8, b: u8) -> bool
    ensures { result ≡ is_two a b }
{
    is_between(a, 0xC2, 0xDF) & is_second(a, b)
}

// Whether three bytes are a character.
fn is_three(a: u8, b: u8, c: u8) -> bool
    ensures { result ≡ is_three a b c }
{
    is_between(a, 0xE0, 0xEF) & (is_second(a, b) & is_third(a, b, c))
}

// Whether four bytes are a character.
fn is_four(a: u8, b: u8, c: u8, d: u8) -> bool
    ensures { result ≡ is_four a b c d }
{
    is_between(a, 0xF0, 0xF4)
        & (is_second(a, b) & (is_between(c, 0x80, 0xBF) & is_between(d, 0x80, 0xBF)))
}

// Whether a byte can follow the first one of a character of several.
fn is_second(a: u8, b: u8) -> bool
    ensures { result ≡ is_second a b }
{
    if a == 0xC2 {
        return is_between(b, 0xA0, 0xBF);
    }
    if a == 0xE0 {
        return is_between(b, 0xA0, 0xBF);
    }
    if a == 0xED {
        return is_between(b, 0x80, 0x9F);
    }
    if a == 0xF0 {
        return is_between(b, 0x90, 0xBF);
    }
    if a == 0xF4 {
        return is_between(b, 0x80, 0x8F);
    }
    is_between(b, 0x80, 0xBF)
}

// Whether a byte can be the last one of a character of three.
fn is_third(a: u8, b: u8, c: u8) -> bool
    ensures { result ≡ is_third a b c }
{
    if a != 0xEF {
        return is_between(c, 0x80, 0xBF);
    }
    if b != 0xBF {
        return is_between(c, 0x80, 0xBF);
    }
    is_between(c, 0x80, 0xBD)
}

// Whether a byte lies between two others, these counted in.
fn is_between(b: u8, low: u8, high: u8) -> bool
    ensures { result ≡ is_between low high b }
{
    (low <= b) & (b <= high)
}
