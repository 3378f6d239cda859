// An energy as people read it: kcal/mol with two decimals.
#![tactic(auto)]

ghost use Rattle.std.specs.Prelude.{◌≡◌, ◌&&◌, ◌+◌, ◌*◌, ◌/◌, ◌^◌, ◌-◌, ◌<◌, ltb};
ghost use Rattle.std.specs.Float.{binary64};
ghost use Rattle.std.specs.Float.Ieee.{of_bits};
ghost use Rattle.text_put.specs.Puts.{Put};
ghost use Rattle.text_energy.specs.Hundredths.{nearest_hundredth, pointed, energy_text};

use text_put::{put_float, put_number, put_text};

// The nearest whole number of hundredths of an energy's size, and its sign.
#[derive(Clone, Copy, Debug, PartialEq, Eq)]
pub struct Hundredths {
    pub negative: bool,
    pub count: u64,
}

impl Hundredths {
    // Whether the energy is below zero as shown.
    fn is_below_zero(self) -> bool
        ensures { result ≡ self.negative && ltb 0 self.count }
    {
        self.negative && 0 < self.count
    }
}

// 2 to the power k.
fn power_of_two(k: u64) -> u64
    requires { k < 64 }
    ensures { result ≡ 2 ^ k }
{
    1 << k
}

// The hundredths of digits · 2^(x - 1075), for an x below 1075: a shift to the right by 1075 - x, rounded.
fn scaled(digits: u64, x: u64) -> u64
    requires { (digits < 2 ^ 53) × (x < 1075) }
    ensures { result ≡ (200 * digits + 2 ^ (1075 - x)) / (2 * 2 ^ (1075 - x)) }
{
    if x <= 1014 {
        return 0;
    }
    let unit = power_of_two(1075 - x);
    (200 * digits + unit) / (2 * unit)
}

// The same of a float by its bits: a field for the exponent, and the digits below the leading one.
fn of_bits(bits: u64) -> Option<Hundredths>
    ensures { result ≡ nearest_hundredth (of_bits binary64 bits) }
{
    let x = bits % 9223372036854775808 / 4503599627370496;
    if 1075 <= x {
        return None;
    }
    let negative = 9223372036854775808 <= bits;
    if x == 0 {
        return Some(Hundredths { negative, count: 0 });
    }
    Some(Hundredths {
        negative,
        count: scaled(4503599627370496 + bits % 4503599627370496, x),
    })
}

// The nearest hundredth of an energy, a half counted away from 0; none from 2^52 on, and of what is no number.
pub fn nearest_hundredth(energy: f64) -> Option<Hundredths>
    ensures { result ≡ nearest_hundredth energy }
{
    if energy.is_nan() {
        return None;
    }
    of_bits(energy.to_bits())
}

// A digit's byte.
fn glyph(digit: u64) -> u8
    requires { digit < 10 }
    ensures { result ≡ 48 + digit }
{
    b'0' + digit as u8
}

// Hundredths with a point before their last two digits.
fn put_pointed(out: &mut [u8], at: usize, count: u64) -> usize
    ensures { Put out.old at (pointed count) result out.new }
{
    let point = put_number(out, at, count / 100);
    let digits = [b'.', glyph(count % 100 / 10), glyph(count % 10)];
    put_text(out, point, &digits)
}

// Puts an energy in kcal/mol with two decimals, or by its bits where it has no hundredths.
pub fn put_energy(out: &mut [u8], at: usize, energy: f64) -> usize
    ensures { Put out.old at (energy_text energy) result out.new }
{
    match nearest_hundredth(energy) {
        None => put_float(out, at, energy),
        Some(h) if h.is_below_zero() => {
            let next = put_text(out, at, b"-");
            put_pointed(out, next, h.count)
        }
        Some(h) => put_pointed(out, at, h.count),
    }
}
