// The values of a case line's fields by their keys. A missing field is unreadable, unless the caller has a value for it.
#![tactic(auto)]

ghost use Rattle.std.specs.Prelude.{◌≡◌, ◌≤◌, ◌^◌, length, IfSome};
ghost use Rattle.text_digits.specs.Digits.{number_of, float_of};
ghost use Rattle.case_text.specs.Fields.{words, first_field};
ghost use Rattle.case_lists.specs.Lists.{items};
ghost use Rattle.case_lists.specs.Text.{signs, is_sign, byte_of};
ghost use Rattle.case_fields.specs.Values.{field_count, field_front, number_or};

use case_lists::{Item, list_into, text_into};
use case_text::{field, float, has_field, number};

// Writes the text of a field to the front of `room`, and answers how many bytes it has.
pub fn text_field(line: &[u8], key: &[u8], room: &mut [u8]) -> Option<usize>
    ensures value { result ≡ field_count is_sign signs key.now line.now (length room.old) }
    ensures room_after { room.new ≡ field_front is_sign byte_of signs key.now line.now room.old }
{
    if has_field(line, key) {
        text_into(field(line, key), room)
    } else {
        None
    }
}

// Writes the items of a field's list to the front of `room`, and answers how many there are.
pub fn list_field<T: Item>(line: &[u8], key: &[u8], room: &mut [T]) -> Option<usize>
    ensures value { result ≡ field_count T.is_item items key.now line.now (length room.old) }
    ensures room_after { room.new ≡ field_front T.is_item T.value_in items key.now line.now room.old }
    ensures within { IfSome result (λ n. n ≤ length room.old) }
{
    if has_field(line, key) {
        list_into(field(line, key), room)
    } else {
        None
    }
}

// The number of a field. A missing field has no digits, so it is unreadable.
pub fn number_field(line: &[u8], key: &[u8]) -> Option<u64>
    ensures { result ≡ number_of (2 ^ 64) (first_field key.now (words line.now)) }
{
    number(field(line, key))
}

// The float of a field, likewise.
pub fn float_field(line: &[u8], key: &[u8]) -> Option<f64>
    ensures { result ≡ float_of (first_field key.now (words line.now)) }
{
    float(field(line, key))
}

// The number of a field, or `otherwise` where it is missing.
pub fn number_or(line: &[u8], key: &[u8], otherwise: usize) -> Option<u64>
    ensures { result ≡ number_or key.now line.now otherwise }
{
    if has_field(line, key) {
        return number(field(line, key));
    }
    Some(otherwise as u64)
}
