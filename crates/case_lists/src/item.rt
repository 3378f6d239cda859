// What an item of a list is read as: a number of a type, decimal digits that are worth what the type has room for, or a float.
ghost use Rattle.std.specs.Prelude.{◌≡◌, ◌^◌, ℕ, Bool, cond, List, Some, None};
ghost use Rattle.text_digits.specs.Digits.{worth, is_number, is_float, float_in};

use text_digits::{float, number};

pub trait Item: Copy {
    // Whether a part can be read as an item, and what it is worth.
    ghost is_item: { List ℕ → Bool };

    ghost value_in: { List ℕ → Self };

    fn read(part: &[u8]) -> Option<Self>
        ensures { result ≡ cond (is_item part.now) (Some (value_in part.now)) None };
}

impl Item for u8 {
    ghost is_item = { is_number (2 ^ 8) };

    ghost value_in = { worth 10 0 };

    fn read(part: &[u8]) -> Option<u8> {
        u8::try_from(number(part)?).ok()
    }
}

impl Item for u32 {
    ghost is_item = { is_number (2 ^ 32) };

    ghost value_in = { worth 10 0 };

    fn read(part: &[u8]) -> Option<u32> {
        u32::try_from(number(part)?).ok()
    }
}

impl Item for usize {
    ghost is_item = { is_number (2 ^ 64) };

    ghost value_in = { worth 10 0 };

    fn read(part: &[u8]) -> Option<usize> {
        usize::try_from(number(part)?).ok()
    }
}

impl Item for f64 {
    ghost is_item = { is_float };

    ghost value_in = { float_in };

    fn read(part: &[u8]) -> Option<f64> {
        float(part)
    }
}
