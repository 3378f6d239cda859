// A bay in a drawing, put into a lent text as far as it fits.
//
// Each function puts its part at the place `at`, leaves the rest of the text as it is, and gives back the next place: a writer struct
// would hold a lent `&mut` slice, whose loan every contract would have to tell.
#![tactic(auto)]

ghost use Rattle.text_put.specs.Puts.{Put};
ghost use Rattle.name_strands.specs.Names.{strand_names_of};
ghost use Rattle.plan_bay_drawing.specs.Squares.{square, tile_label, bay_drawing};

use name_strands::StrandNames;
use plan_bay_names::name_of;
use plan_name_drawing::put_label;
use text_put::{chosen, put_form, put_text};

// A bay of a drawing: how many pixels across and down it stands, its tile, 0 for none, and its mark.
#[derive(Clone, Copy)]
pub struct Bay {
    pub across: u64,
    pub down: u64,
    pub tile: u32,
    pub mark: u8,
}

// A bay at its place, with its mark and the name of its tile.
pub fn put_bay(names: &StrandNames<'_>, bay: Bay, out: &mut [u8], at: usize) -> usize
    ensures { let n = strand_names_of names.now in
        Put out.old at (bay_drawing n bay.across bay.down bay.tile bay.mark) result out.new }
{
    let label = put_square(bay, out, at);
    let end = put_tile_label(names, bay.tile, out, label);
    put_text(out, end, b"</g>\n")
}

// The name of a tile, nothing for an empty bay.
fn put_tile_label(names: &StrandNames<'_>, tile: u32, out: &mut [u8], at: usize) -> usize
    ensures { let n = strand_names_of names.now in
        Put out.old at (tile_label n tile) result out.new }
{
    if tile == 0 {
        return put_text(out, at, b"");
    }
    put_label(name_of(names, tile), out, at)
}

// The square of a bay at its place: filled where it holds a tile, its border by the bay's mark.
fn put_square(bay: Bay, out: &mut [u8], at: usize) -> usize
    ensures { Put out.old at (square bay.across bay.down bay.tile bay.mark) result out.new }
{
    let fill = put_form(
        out,
        at,
        b"<g transform=\"translate($,@)\"><rect class=\"",
        bay.across,
        bay.down,
    );
    let edge = put_text(out, fill, chosen(bay.tile == 0, b"", b"tile "));
    let asked = chosen(bay.mark == 2, b"seed", b"restricted");
    let size = put_text(out, edge, chosen(bay.mark == 0, b"free", asked));
    put_text(out, size, b"\" width=\"72\" height=\"72\"/>")
}
