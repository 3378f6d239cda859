// A name in the middle of a square, put into a lent text as far as it fits.
//
// Each `put_` function puts its part at the place `at`, leaves the rest of the text as it is, and gives back the next place: a writer struct
// would hold a lent `&mut` slice, whose loan every contract would have to tell.
#![tactic(auto)]

ghost use Rattle.std.specs.Prelude.{◌≡◌};
ghost use Rattle.text_put.specs.Puts.{Put};
ghost use Rattle.plan_name_drawing.specs.Escaped.{escaped_byte, escaped};
ghost use Rattle.plan_name_drawing.specs.Letters.{letter_size, line, two_lines, label};

use plan_bay_names::{characters, front_bytes};
use text_put::{chosen, put_form, put_text};

// A name, on one line or on two.
pub fn put_label(name: &[u8], out: &mut [u8], at: usize) -> usize
    ensures { Put out.old at (label name.now) result out.new }
{
    let count = characters(name);
    if count < 11 {
        let size = letter_size(count);
        return put_line(36 + size / 3, size, name, out, at);
    }
    put_two_lines(count - count / 2, name, out, at)
}

// A text on two lines, the first of so many characters.
fn put_two_lines(first: usize, text: &[u8], out: &mut [u8], at: usize) -> usize
    ensures { Put out.old at (two_lines first text.now) result out.new }
{
    let size = letter_size(first);
    let end = front_bytes(text, first);
    let next = put_line(33, size, &text[..end], out, at);
    put_line(35 + size, size, &text[end..], out, next)
}

// Letters of a size on one line, so many pixels down.
fn put_line(down: u64, size: u64, text: &[u8], out: &mut [u8], at: usize) -> usize
    ensures { Put out.old at (line down size text.now) result out.new }
{
    let letters = put_form(
        out,
        at,
        b"<text class=\"name\" x=\"36\" y=\"$\" font-size=\"@\">",
        down,
        size,
    );
    let end = put_escaped(out, letters, text);
    put_text(out, end, b"</text>")
}

// A text between tags, where its signs have no meaning of their own.
fn put_escaped(out: &mut [u8], at: usize, text: &[u8]) -> usize
    ensures { Put out.old at (escaped text.now) result out.new }
{
    let mut next = at.min(out.len());
    for &byte in text {
        next = put_byte(out, next, byte);
    }
    next
}

// A byte of it.
fn put_byte(out: &mut [u8], at: usize, byte: u8) -> usize
    ensures { Put out.old at (escaped_byte byte) result out.new }
{
    let own = [byte];
    let above = chosen(byte == b'>', b"&gt;", &own);
    let below = chosen(byte == b'<', b"&lt;", above);
    let joined = chosen(byte == b'&', b"&amp;", below);
    let quoted = chosen(byte == b'"', b"&quot;", joined);
    put_text(out, at, chosen(byte < 32, b" ", quoted))
}

// The size of letters of which so many fit side by side.
fn letter_size(count: usize) -> u64
    ensures { result ≡ letter_size count }
{
    if count < 7 {
        return 16;
    }
    if count < 101 {
        return 100 / (count as u64);
    }
    1
}
