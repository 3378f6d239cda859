// What lent tables hold: whether each place from one on still has the value that it had.
#![tactic(auto)]

ghost use Rattle.std.specs.Prelude.{cond, ◌≡◌};
ghost use Rattle.text_put.specs.Puts.{place_after, written};
ghost use Rattle.case_lent.specs.Kept.{all_from, same_float, rest_text};

use case_answer_lines::put_text;

// For any type but a float: its two zeros are equal, and these tables tell them apart.
pub fn all_from<T: Copy + PartialEq>(table: &[T], from: usize, value: T) -> bool
    ensures { result ≡ all_from (λ x. T.eq x value) from table.now }
{
    table.iter().skip(from).all(|x| *x == value)
}

// Whether two floats are the same; of zeros the signs are told apart, by their inverses.
fn same_float(x: f64, y: f64) -> bool
    ensures { result ≡ same_float x y }
{
    x == y && 1.0 / x == 1.0 / y
}

pub fn all_floats(table: &[f64], from: usize, value: f64) -> bool
    ensures { result ≡ all_from (λ x. same_float x value) from table.now }
{
    table.iter().skip(from).all(|x| same_float(*x, value))
}

// ` rest` where a place behind what was written does not hold what it held.
pub fn put_rest(out: &mut [u8], at: usize, kept: bool) -> usize
    ensures place { result ≡ cond kept at (place_after out.old at rest_text) }
    ensures slice { out.new ≡ cond kept out.old (written out.old at rest_text) }
{
    if kept {
        return at;
    }
    put_text(out, at, b" rest")
}
