// A layout written as a grid of tile names, one row a line, into a lent text as far as it fits.
//
// Each `put_` function puts its part at the place `at`, leaves the rest of the text as it is, and gives back the next place: a writer
// struct would hold a lent `&mut` slice, whose loan every contract would have to tell.
#![tactic(auto)]

ghost use Rattle.std.specs.Prelude.{◌-◌, drop};
ghost use Rattle.text_put.specs.Puts.{Put};
ghost use Rattle.name_strands.specs.Names.{strand_names_of};
ghost use Rattle.plan_bay_names.specs.Bays.{bay_text};
ghost use Rattle.plan_layout_text.specs.Grid.{spaces, cell_text, row_text, layout_text};

use name_strands::StrandNames;
use plan_bay_names::{characters, name_of, tile_at, widest_bay};
use text_put::{chosen, put_text};

// What is written: the tiles of a layout with so many bays in a row, the names that are shown for them, and the most characters that a
// bay shows.
#[derive(Clone, Copy)]
struct Shown<'a> {
    cols: usize,
    layout: &'a [u32],
    names: StrandNames<'a>,
    width: usize,
}

// The grid of a layout.
pub fn put_layout(
    rows: usize,
    cols: usize,
    layout: &[u32],
    names: &StrandNames<'_>,
    out: &mut [u8],
    at: usize,
) -> usize
    ensures { let n = strand_names_of names.now in
        Put out.old at (layout_text rows cols n layout.now) result out.new }
{
    let width = widest_bay(layout, names);
    let shown = Shown {
        cols,
        layout,
        names: *names,
        width,
    };
    let mut next = at.min(out.len());
    let mut bay = 0;
    for _ in 0..rows {
        next = put_row(&shown, bay, out, next);
        bay = bay.saturating_add(cols).min(layout.len());
    }
    next
}

// The line of a row's bays, of which this is the first.
fn put_row(shown: &Shown<'_>, first: usize, out: &mut [u8], at: usize) -> usize
    ensures { let s = shown.now in
        let n = strand_names_of s.names in
        Put out.old at (row_text n s.width (drop first s.layout.now) s.cols) result out.new }
{
    let mut next = at.min(out.len());
    let mut bay = first;
    for left in (0..shown.cols).rev() {
        let tile = tile_at(shown.layout, bay);
        next = put_bay(&shown.names, tile, shown.width, left, out, next);
        bay = bay.saturating_add(1).min(shown.layout.len());
    }
    put_text(out, next, b"\n")
}

// What is shown for a bay, and what stands between it and the next one.
fn put_bay(
    names: &StrandNames<'_>,
    tile: u32,
    width: usize,
    left: usize,
    out: &mut [u8],
    at: usize,
) -> usize
    ensures { let n = strand_names_of names.now in
        Put out.old at (cell_text width left (bay_text n tile)) result out.new }
{
    let name = name_of(names, tile);
    put_cell(chosen(tile == 0, b".", name), width, left, out, at)
}

// A text with spaces behind it to the width of a column, unless it is the last of its row.
fn put_cell(shown: &[u8], width: usize, left: usize, out: &mut [u8], at: usize) -> usize
    ensures { Put out.old at (cell_text width left shown.now) result out.new }
{
    let end = put_text(out, at, shown);
    if left == 0 {
        return end;
    }
    let wide = put_spaces(characters(shown), width, out, end);
    put_text(out, wide, b"  ")
}

// As many spaces as one number is below another.
fn put_spaces(from: usize, to: usize, out: &mut [u8], at: usize) -> usize
    ensures { Put out.old at (spaces (to - from)) result out.new }
{
    let mut next = at.min(out.len());
    for _ in from..to {
        next = put_text(out, next, b" ");
    }
    next
}
