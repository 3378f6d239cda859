// Numbers in decimal digits, and floats by the hexadecimal digits of their bits.
#![tactic(auto)]

ghost use Rattle.std.specs.Prelude.{◌≡◌, ◌^◌, ◌≤◌, ◌<◌};
ghost use Rattle.std.specs.Float.{binary64};
ghost use Rattle.std.specs.Float.Ieee.{of_bits};
ghost use Rattle.text_digits.specs.Digits.{digit_of, whole_of, number_of, bits_of, float_of};

// A number: 1 to 20 decimal digits, below 2^64.
#[tactic(auto, using(crate::proofs::Worth::number_none, crate::proofs::Worth::number_long, crate::proofs::Worth::number_whole))]
pub fn number(value: &[u8]) -> Option<u64>
    ensures { result ≡ number_of (2 ^ 64) value.now }
{
    if value.is_empty() || 20 < value.len() {
        return None;
    }
    whole(value, 10)
}

// A float: its bits as 16 hexadecimal digits. Each NaN's bits are read as a NaN.
#[tactic(auto, using(crate::proofs::Worth::float_read, crate::proofs::Worth::float_bad))]
pub fn float(value: &[u8]) -> Option<f64>
    ensures { result ≡ float_of value.now }
{
    let bits = bits(value)?;
    Some(float_of(bits))
}

// The bits of a float: 16 hexadecimal digits.
#[tactic(auto, using(crate::proofs::Worth::bits_none, crate::proofs::Worth::bits_whole))]
pub fn bits(value: &[u8]) -> Option<u64>
    ensures { result ≡ bits_of value.now }
{
    if value.len() != 16 {
        return None;
    }
    whole(value, 16)
}

// What digits of a base are worth together, the highest first, where that is below 2^64.
pub fn whole(value: &[u8], base: u64) -> Option<u64>
    requires { (1 < base) × (base ≤ 16) }
    ensures { result ≡ whole_of base value.now }
{
    let mut n: u64 = 0;
    for &b in value {
        let d = digit(b)?;
        if base <= d {
            return None;
        }
        n = n.checked_mul(base)?.checked_add(d)?;
    }
    Some(n)
}

// What a byte is worth as a digit: `0` to `9`, then `a` to `f`.
#[tactic(auto, unfolding(crate::specs::Digits::digit, crate::specs::Digits::digit_of))]
pub fn digit(b: u8) -> Option<u64>
    ensures { result ≡ digit_of b }
{
    match b {
        b'0'..=b'9' => Some((b - b'0') as u64),
        b'a'..=b'f' => Some((b - b'a' + 10) as u64),
        _ => None,
    }
}

// The float of a bit pattern. A NaN's pattern has all ones in the exponent's field and a digit
// below it, and is read as the NaN of a division.
pub fn float_of(bits: u64) -> f64
    ensures { result ≡ of_bits binary64 bits }
{
    let below = bits % 4503599627370496;
    let exponent = bits % 9223372036854775808 / 4503599627370496;
    if exponent == 2047 && below != 0 {
        return f64::NAN;
    }
    f64::from_bits(bits)
}
