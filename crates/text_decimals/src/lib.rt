// Decimals as people write them, read as the floats nearest to them.
//
// Up to 15 digits are a whole number below 2^53, and a power of ten up to 10^22 is a float too: one division rounds once.
#![tactic(auto)]

ghost use Rattle.std.specs.Prelude.{◌≡◌, suc, ◌-◌, ◌^◌, ◌<◌, ◌≤◌, true, false, ◌++◌, length, take, drop};
ghost use Rattle.units.specs.Decimals.{decimal as decimals_decimal};
ghost use Rattle.text_decimals.specs.Decimals.{whole_length, is_formed, digits_after, over_ten, signed_of, decimal_of, is_minus_infinity, logarithm_of};

use text_digits::digit;
use text_fronts::byte_at;

const POWERS_OF_TEN: [f64; 23] = [
    1.0, 1e1, 1e2, 1e3, 1e4, 1e5, 1e6, 1e7, 1e8, 1e9, 1e10, 1e11, 1e12, 1e13, 1e14, 1e15, 1e16,
    1e17, 1e18, 1e19, 1e20, 1e21, 1e22,
];

// Digits that are worth less are a float as they stand.
const TEN_TO_15: u64 = 1000000000000000;

// n / 10^k, rounded once.
fn quotient(n: u64, k: usize) -> f64
    requires { (n < 10 ^ 15) × (k ≤ 22) }
    ensures { result ≡ decimals_decimal false n (10 ^ k) }
{
    std::num::nearest_u64_to_f64(n) / POWERS_OF_TEN[k]
}

// The same with a sign.
fn ratio(negative: bool, n: u64, k: usize) -> f64
    requires { (n < 10 ^ 15) × (k ≤ 22) }
    ensures { result ≡ decimals_decimal negative n (10 ^ k) }
{
    if negative {
        -quotient(n, k)
    } else {
        quotient(n, k)
    }
}

// How many bytes stand before the point, all of them where there is none.
fn whole_length(text: &[u8]) -> usize
    ensures { result ≡ whole_length text.now }
{
    text_search::find(text, 0, text.len(), b'.').unwrap_or(text.len())
}

// What digits are worth after others that are worth n, where that is less than 10^15.
fn digits_after(n: u64, digits: &[u8]) -> Option<u64>
    requires { n < 10 ^ 15 }
    ensures { result ≡ digits_after n digits.now }
{
    let mut worth = n;
    for &b in digits {
        let d = digit(b)?;
        if 10 <= d {
            return None;
        }
        worth = worth * 10 + d;
        if TEN_TO_15 <= worth {
            return None;
        }
    }
    Some(worth)
}

// All digits of a number, those before its point and those after it.
fn all_digits(text: &[u8], point: usize) -> Option<u64>
    requires { point ≤ length text.now }
    ensures { result ≡ digits_after 0 (take point text.now ++ drop (suc point) text.now) }
{
    if point == text.len() {
        return digits_after(0, text);
    }
    let n = digits_after(0, &text[..point])?;
    digits_after(n, &text[point + 1..])
}

// How many bytes stand after the point, none where there is no point.
fn places_after(bytes: usize, point: usize) -> usize
    ensures { result ≡ bytes - suc point }
{
    if point < bytes { bytes - point - 1 } else { 0 }
}

// Digits before the point, and after it where there is one, without a 0 too many in front.
fn is_formed(text: &[u8], point: usize) -> bool
    requires { point ≡ whole_length text.now }
    ensures { result ≡ is_formed text.now }
{
    let first = (point == 1) | (byte_at(text, 0) != b'0');
    let last = (point == text.len()) | (1 <= places_after(text.len(), point));
    (1 <= point) & (first & last)
}

// A number of digits over a power of ten, with its sign, rounded once.
fn over_ten(negative: bool, digits: Option<u64>, places: usize) -> Option<f64>
    requires { places ≤ 22 }
    ensures { result ≡ over_ten negative digits places }
{
    let n = digits?;
    if TEN_TO_15 <= n {
        return None;
    }
    Some(ratio(negative, n, places))
}

// A number without its sign.
fn signed(negative: bool, text: &[u8]) -> Option<f64>
    ensures { result ≡ signed_of negative text.now }
{
    let point = whole_length(text);
    if !is_formed(text, point) {
        return None;
    }
    let places = places_after(text.len(), point);
    if 22 < places {
        return None;
    }
    over_ten(negative, all_digits(text, point), places)
}

// A decimal: at most 15 digits from the first that is not 0 on, at most 22 after the point, a minus in front where it is negative.
pub fn decimal(text: &[u8]) -> Option<f64>
    ensures { result ≡ decimal_of text.now }
{
    match text {
        [] => None,
        [b'-', unsigned @ ..] => signed(true, unsigned),
        _ => signed(false, text),
    }
}

// Whether a text is `-inf`.
fn is_minus_infinity(text: &[u8]) -> bool
    ensures { result ≡ is_minus_infinity text.now }
{
    text == b"-inf".as_slice()
}

// A logarithm of a concentration: a decimal, or `-inf` for a strand that is not there.
pub fn logarithm(text: &[u8]) -> Option<f64>
    ensures { result ≡ logarithm_of text.now }
{
    if is_minus_infinity(text) {
        return Some(f64::NEG_INFINITY);
    }
    decimal(text)
}
