// Text put into a lent slice: a text, a number, a float, a form with its numbers.
//
// Each `put_` function puts a text at the place `at`, leaves the rest of the slice as it is, and gives back the next place.
// What does not fit is cut off, and the next place is then the slice's end: a run of these calls leaves the texts one after
// the other, or as much of their front as has room.
#![tactic(auto)]

ghost use Rattle.std.specs.Prelude.{◌≡◌, cond};
ghost use Rattle.text_put.specs.Puts.{Put, number_text, signed_text, float_text};
ghost use Rattle.text_put.specs.Forms.{filled_byte, filled};

// Puts the bytes of `text`.
pub fn put_text(out: &mut [u8], at: usize, text: &[u8]) -> usize
    ensures { Put out.old at text.now result out.new }
{
    if out.len() <= at {
        return out.len();
    }
    let room = text.len().min(out.len() - at);
    out[at..at + room].copy_from_slice(&text[..room]);
    at + room
}

// Puts the decimal digits of `n`.
pub fn put_number(out: &mut [u8], at: usize, n: u64) -> usize
    ensures { Put out.old at (number_text n) result out.new }
{
    let mut digits = [0u8; 20];
    let k = io::decimal(n, &mut digits);
    put_text(out, at, &digits[..k])
}

// Puts the decimal digits of `n`, with `-` in front where it is negative.
pub fn put_signed(out: &mut [u8], at: usize, n: i32) -> usize
    ensures { Put out.old at (signed_text n) result out.new }
{
    if n < 0 {
        let next = put_text(out, at, b"-");
        put_number(out, next, u64::from(n.unsigned_abs()))
    } else {
        put_number(out, at, u64::from(n.unsigned_abs()))
    }
}

// Puts the 16 hexadecimal digits of the bits of `x`, or `nan`.
pub fn put_float(out: &mut [u8], at: usize, x: f64) -> usize
    ensures { Put out.old at (float_text x) result out.new }
{
    if x.is_nan() {
        return put_text(out, at, b"nan");
    }
    let mut digits = [0u8; 16];
    let k = io::hex(x.to_bits(), 16, &mut digits);
    put_text(out, at, &digits[..k])
}

// Puts a form: a text in which `$` stands for one number and `@` for another.
pub fn put_form(out: &mut [u8], at: usize, form: &[u8], one: u64, other: u64) -> usize
    ensures { Put out.old at (filled one other form.now) result out.new }
{
    let mut next = at.min(out.len());
    for &byte in form {
        next = put_sign(out, next, byte, one, other);
    }
    next
}

// Puts what a byte of a form stands for.
fn put_sign(out: &mut [u8], at: usize, byte: u8, one: u64, other: u64) -> usize
    ensures { Put out.old at (filled_byte one other byte) result out.new }
{
    match byte {
        b'$' => put_number(out, at, one),
        b'@' => put_number(out, at, other),
        _ => put_text(out, at, &[byte]),
    }
}

// One of two texts, by a test.
pub fn chosen<'a>(test: bool, one: &'a [u8], other: &'a [u8]) -> &'a [u8]
    ensures { result.now ≡ cond test one.now other.now }
{
    if test { one } else { other }
}
