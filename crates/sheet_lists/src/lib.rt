// The lists of a tested sheet, written out: where each begins, and the numbers of all.
#![tactic(auto)]

ghost use Rattle.std.specs.Prelude.{◌≡◌, true, ◌+◌, ◌≤◌, length};
ghost use Rattle.sheet_cells.specs.Cells.{cells, all_tiles, starts, front};
ghost use Rattle.sheet_cells.specs.Checks.{are_cells, count_in};

use sheet_fields::field_or_empty;
use sheet_number_lists::put_list;

// Writes the lists of the first `bays` fields. Records play no part here: a field's end says where the next one begins.
pub fn put_lists(text: &[u8], bays: usize, offsets: &mut [usize], tiles: &mut [u32])
    requires text_value { are_cells bays text.now ≡ true }
    requires offsets_len { length offsets.old ≡ bays + 1 }
    requires text_in_bounds { count_in bays text.now ≤ length tiles.old }
    ensures offsets_after { offsets.new ≡ starts 0 (cells bays text.now) }
    ensures tiles_after { tiles.new ≡ front (all_tiles (cells bays text.now)) tiles.old }
{
    let mut next = 0;
    let mut at = 0;
    for bay in 0..bays {
        offsets[bay] = at;
        let field = field_or_empty(text, next);
        at = put_list(field.raw(text), tiles, at);
        next = field.next;
    }
    offsets[bays] = at;
}
