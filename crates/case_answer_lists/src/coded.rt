// A text as a value: bytes that stand for themselves, and `%` with two hexadecimal digits for any other.
ghost use Rattle.std.specs.Prelude.{◌++◌};
ghost use Rattle.text_put.specs.Puts.{Put};
ghost use Rattle.case_answer_lists.specs.Coded.{coded_byte, coded};

use text_put::put_text;

// One byte of a text.
fn put_byte(out: &mut [u8], at: usize, byte: u8) -> usize
    ensures { Put out.old at (coded_byte byte) result out.new }
{
    let n = byte as u64;
    if case_text::is_plain(n) {
        let one = [byte];
        return put_text(out, at, &one);
    }
    let sign = put_text(out, at, b"%");
    let mut digits = [0u8; 16];
    let k = io::hex(n, 2, &mut digits);
    put_text(out, sign, &digits[..k])
}

// A word, and a text.
pub fn put_coded(out: &mut [u8], at: usize, word: &[u8], text: &[u8]) -> usize
    ensures { Put out.old at (word.now ++ coded text.now) result out.new }
{
    let mut next = put_text(out, at, word);
    for &byte in text {
        next = put_byte(out, next, byte);
    }
    next
}
