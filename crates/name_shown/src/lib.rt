// The part of a lent text that is shown for a tile.
#![tactic(auto)]

ghost use Rattle.std.specs.Prelude.{◌≡◌, ◌<◌, length};
ghost use Rattle.text_entries.specs.Entries.{part, after};
ghost use Rattle.name_strands.specs.Numerals.{numeral_start, numeral_end};
ghost use Rattle.name_strands.specs.Names.{strand_names_of, StrandsReadable};
ghost use Rattle.name_shown.specs.Shown.{begins_at, shown_part, shown_name};

use name_strands::StrandNames;

// The digits that are shown for i: both, below 10 the second alone.
fn numeral(numerals: &[u8], i: usize) -> &[u8]
    requires i_in_bounds { i < 63 }
    requires numerals_len { length numerals.now ≡ 126 }
    ensures bytes { result.now ≡ part numerals.now (numeral_start i) (numeral_end i) }
    ensures place { result.ref_ptr ≡ after numerals.entry.ref_ptr (numeral_start i) }
{
    let start = if i < 10 { 2 * i + 1 } else { 2 * i };
    &numerals[start..2 * i + 2]
}

// The part that is shown for a tile.
#[tactic(auto, using(crate::proofs::Numerals::numerals_length), unfolding(crate::specs::Shown::shown_name))]
pub fn shown<'a>(names: &StrandNames<'a>, tile: usize) -> &'a [u8]
    requires strands_readable { StrandsReadable (strand_names_of names.now) }
    requires tile_in_bounds { tile < length names.now.names.present.now }
    ensures bytes { result.now ≡ shown_name (strand_names_of names.now) tile }
    ensures place { let part = shown_part (strand_names_of names.now) tile in
        result.ref_ptr ≡ begins_at names.now.names.text.ref_ptr names.now.numerals.ref_ptr part }
{
    if names.names.is_present(tile) {
        names.names.entry(tile)
    } else {
        numeral(names.numerals, tile - 1)
    }
}
