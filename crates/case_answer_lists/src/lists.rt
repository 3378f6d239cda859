// Lists: items with a comma between two of them, after a word.
ghost use Rattle.std.specs.Prelude.{◌≡◌, ◌++◌};
ghost use Rattle.text_put.specs.Puts.{Put, number_text, float_text};
ghost use Rattle.case_answer_lists.specs.Lists.{item, listed};

use text_put::{put_float, put_number, put_text};

// A number as the item at place i of a list.
pub fn put_next_number(out: &mut [u8], at: usize, i: usize, n: u64) -> usize
    ensures { Put out.old at (item i (number_text n)) result out.new }
{
    if i == 0 {
        return put_number(out, at, n);
    }
    let next = put_text(out, at, b",");
    put_number(out, next, n)
}

// A float as the item at place i of a list. One function lent the putting needs a contract of what that puts: no plainer.
pub fn put_next_float(out: &mut [u8], at: usize, i: usize, x: f64) -> usize
    ensures { Put out.old at (item i (float_text x)) result out.new }
{
    if i == 0 {
        return put_float(out, at, x);
    }
    let comma = put_text(out, at, b",");
    put_float(out, comma, x)
}

// A word, and the list of a table's numbers; one function for each type, since a usize is no `Into<u64>`.
pub fn put_small_numbers(out: &mut [u8], at: usize, word: &[u8], table: &[u32]) -> usize
    ensures { Put out.old at (word.now ++ listed number_text 0 table.now) result out.new }
{
    let mut next = put_text(out, at, word);
    for (i, &n) in table.iter().enumerate() {
        next = put_next_number(out, next, i, n as u64);
    }
    next
}

pub fn put_numbers(out: &mut [u8], at: usize, word: &[u8], table: &[usize]) -> usize
    ensures { Put out.old at (word.now ++ listed number_text 0 table.now) result out.new }
{
    let mut next = put_text(out, at, word);
    for (i, &n) in table.iter().enumerate() {
        next = put_next_number(out, next, i, n as u64);
    }
    next
}

pub fn put_long_numbers(out: &mut [u8], at: usize, word: &[u8], table: &[u64]) -> usize
    ensures { Put out.old at (word.now ++ listed number_text 0 table.now) result out.new }
{
    let mut next = put_text(out, at, word);
    for (i, &n) in table.iter().enumerate() {
        next = put_next_number(out, next, i, n);
    }
    next
}
