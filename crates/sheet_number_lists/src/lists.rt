// The words of a content one after the other: counted, and put into a lent slice.
//
// What puts answers the next place: a writer struct would hold a lent `&mut` slice, whose loan every contract would have to tell.
ghost use Rattle.std.specs.Prelude.{◌≡◌, [], ◌∷◌};
ghost use Rattle.text_put.specs.Puts.{Put};
ghost use Rattle.sheet_number_lists.specs.NumberLists.{list_in};
ghost use Rattle.sheet_number_lists.specs.Counts.{list_count};

use crate::plain::plain_number;

// How many numbers a content has, if it is a list.
pub fn count_numbers(content: &[u8]) -> Option<usize>
    ensures { result ≡ list_count content.now }
{
    let mut count = 0;
    if content.is_empty() {
        return Some(count);
    }
    for word in content.split(|&b| b == b' ') {
        plain_number(word)?;
        count += 1;
    }
    Some(count)
}

// Puts the numbers of a content into `tiles` from `at` on, as far as they fit, and answers the next place.
pub fn put_list(content: &[u8], tiles: &mut [u32], at: usize) -> usize
    ensures { Put tiles.old at (list_in content.now) result tiles.new }
{
    let mut next = at.min(tiles.len());
    if content.is_empty() {
        return next;
    }
    for word in content.split(|&b| b == b' ') {
        next = put_tile(tiles, next, plain_number(word).unwrap_or(0));
    }
    next
}

// Puts one number.
fn put_tile(tiles: &mut [u32], at: usize, tile: u32) -> usize
    ensures { Put tiles.old at (tile ∷ []) result tiles.new }
{
    if tiles.len() <= at {
        return tiles.len();
    }
    tiles[at] = tile;
    at + 1
}
