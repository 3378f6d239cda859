// The name shown for a tile, by two calls of the same inputs: what is refused, and the part.
#![tactic(auto)]

ghost use Rattle.std.specs.Prelude.{◌≡◌};
ghost use Rattle.name_strands.specs.Names.{strand_names_of};
ghost use Rattle.name_tiles.specs.Tiles.{tile_verdict, tile_part};
ghost use Rattle.name_shown.specs.Shown.{bytes_of, begins_at};

use name_shown::shown;
use name_strands::StrandNames;
use units::Refusal;

// What is refused of a tile's name.
#[tactic(auto, using(name_strands::proofs::Passed::first_there, name_strands::proofs::Passed::sized))]
pub fn tile_name_refusal(strands: usize, names: &StrandNames<'_>, tile: u32) -> Result<(), Refusal>
    ensures { result ≡ tile_verdict strands (strand_names_of names.now) tile }
{
    if !names.sized(strands) {
        return Err(Refusal::Size);
    }
    if !names.readable() {
        return Err(Refusal::Unreadable);
    }
    if strands <= tile as usize {
        return Err(Refusal::Tile);
    }
    Ok(())
}

// The part that is shown for a tile, empty from the names text's start where it is refused.
#[tactic(auto, using(crate::proofs::Tile::tile_readable), unfolding(name_shown::specs::Shown::shown_name))]
pub fn tile_name<'a>(strands: usize, names: &StrandNames<'a>, tile: u32) -> &'a [u8]
    ensures answer { let n = strand_names_of names.now in
        result.now ≡ bytes_of n (tile_part strands n tile) }
    ensures place { let part = tile_part strands (strand_names_of names.now) tile in
        result.ref_ptr ≡ begins_at names.now.names.text.ref_ptr names.now.numerals.ref_ptr part }
{
    match tile_name_refusal(strands, names, tile) {
        Ok(()) => shown(names, tile as usize),
        Err(_) => &names.names.text[..0],
    }
}
