// The names that are shown for the bays of a layout, and how wide they are.
#![tactic(auto)]

ghost use Rattle.std.specs.Prelude.{◌≡◌, get_or};
ghost use Rattle.name_strands.specs.Names.{strand_names_of};
ghost use Rattle.plan_bay_names.specs.Bays.{name_of, bay_text, begun, character_count, front_bytes, widest_bay};

use name_strands::StrandNames;

// The name that is shown for a tile, there being as many strands as presence bytes.
pub fn name_of<'a>(names: &StrandNames<'a>, tile: u32) -> &'a [u8]
    ensures { let n = strand_names_of names.now in
        result.now ≡ name_of n tile }
{
    name_tiles::tile_name(names.names.present.len(), names, tile)
}

// The tile of a bay, 0 past the layout's end: no Option, since a bay that the layout leaves out is shown as an empty one.
pub fn tile_at(layout: &[u32], bay: usize) -> u32
    ensures { result ≡ get_or layout.now bay 0 }
{
    layout.get(bay).copied().unwrap_or(0)
}

// How many characters a text has.
pub fn characters(text: &[u8]) -> usize
    ensures { result ≡ character_count text.now }
{
    let mut count = 0;
    for &byte in text {
        count += begins(byte);
    }
    count
}

// How many bytes the first so many characters of a text have.
pub fn front_bytes(text: &[u8], count: usize) -> usize
    ensures { result ≡ front_bytes count text.now }
{
    let mut left = count;
    for (i, &byte) in text.iter().enumerate() {
        let begun = begins(byte);
        if left < begun {
            return i;
        }
        left -= begun;
    }
    text.len()
}

// 1 for a byte that begins a character.
fn begins(byte: u8) -> usize
    ensures { result ≡ begun byte }
{
    if byte < 128 {
        return 1;
    }
    if byte < 192 {
        return 0;
    }
    1
}

// How many characters are shown for a bay.
fn bay_width(names: &StrandNames<'_>, tile: u32) -> usize
    ensures { let n = strand_names_of names.now in
        result ≡ character_count (bay_text n tile) }
{
    if tile == 0 {
        return 1;
    }
    characters(name_of(names, tile))
}

// The most characters that a bay of a layout shows.
pub fn widest_bay(layout: &[u32], names: &StrandNames<'_>) -> usize
    ensures { let n = strand_names_of names.now in
        result ≡ widest_bay n layout.now }
{
    let mut widest = 0;
    for &tile in layout {
        widest = widest.max(bay_width(names, tile));
    }
    widest
}
