// Lists: items with a comma between two of them, read one by one to the front of a lent slice.
ghost use Rattle.std.specs.Prelude.{◌≡◌, length};
ghost use Rattle.case_lists.specs.Lists.{items, counted, values, front};

use crate::Item;
use case_text::item_end;

// Writes the items of a list to the front of `out`, and answers how many they are. Where one is
// unreadable or too large, or there is no room for all, the items before it are written. Nothing else changes.
pub fn list_into<T: Item>(value: &[u8], out: &mut [T]) -> Option<usize>
    ensures value { result ≡ counted T.is_item (items value.now) (length out.old) }
    ensures out_after { out.new ≡ front (values T.is_item T.value_in (items value.now)) out.old }
{
    if value.is_empty() {
        return Some(0);
    }
    let mut at = 0;
    let mut n = 0;
    // No `for`: a turn goes on from where the item before it ends, and the last one is the one that ends the value.
    loop {
        let end = item_end(value, at);
        if out.len() <= n {
            return None;
        }
        out[n] = T::read(&value[at..end])?;
        n += 1;
        if end == value.len() {
            return Some(n);
        }
        at = end + 1;
    }
}
