// A layout drawn in SVG, put into a lent text as far as it fits.
//
// Each `put_` function puts its part at the place `at`, leaves the rest of the text as it is, and gives back the next place: a writer
// struct would hold a lent `&mut` slice, whose loan every contract would have to tell.
#![tactic(auto)]

mod frame;

ghost use Rattle.std.specs.Prelude.{◌≡◌, ◌*◌, ◌≤◌, get_or, drop};
ghost use Rattle.units.specs.Limits.{most_side};
ghost use Rattle.text_put.specs.Puts.{Put};
ghost use Rattle.name_strands.specs.Names.{strand_names_of};
ghost use Rattle.plan_layout_svg.specs.Drawing.{row_drawing, rows_drawing, pixels_across, is_drawn, svg_text};

use crate::frame::{put_foot, put_head};
use name_strands::StrandNames;
use plan_bay_drawing::{Bay, put_bay};
use plan_bay_names::tile_at;
use text_put::put_text;
use units::MOST_SIDE;

// What is drawn: the tiles of a layout with so many bays in a row, the names that are shown for them, and the marks of the bays.
#[derive(Clone, Copy)]
struct Shown<'a> {
    cols: usize,
    layout: &'a [u32],
    names: StrandNames<'a>,
    marks: &'a [u8],
}

// The drawing of a layout, with a mark for each bay: 0 free, 1 with a list, 2 seeded, 3 kept empty by a list of 0. The parts are handed
// one by one: there is one caller, which has them apart.
pub fn put_svg(
    rows: usize,
    cols: usize,
    layout: &[u32],
    names: &StrandNames<'_>,
    marks: &[u8],
    energy: f64,
    out: &mut [u8],
    at: usize,
) -> usize
    ensures { let n = strand_names_of names.now in
        Put out.old at (svg_text rows cols n layout.now marks.now energy) result out.new }
{
    if !has_room(rows, cols) {
        return put_text(out, at, b"");
    }
    let first = put_head(across(cols), 80 * (rows as u64) + 124, energy, out, at);
    let shown = Shown {
        cols,
        layout,
        names: *names,
        marks,
    };
    let end = put_rows(rows, &shown, out, first);
    put_foot(80 * (rows as u64) + 78, out, end)
}

// Whether a grid is drawn.
fn has_room(rows: usize, cols: usize) -> bool
    ensures { result ≡ is_drawn rows cols }
{
    rows <= MOST_SIDE && cols <= MOST_SIDE
}

// How many pixels wide a drawing is.
fn across(cols: usize) -> u64
    requires { cols ≤ most_side }
    ensures { result ≡ pixels_across cols }
{
    80 * (cols.max(3) as u64) + 40
}

// The rows of a layout. The bounds keep the counts of pixels and of bays from wrapping.
fn put_rows(rows: usize, shown: &Shown<'_>, out: &mut [u8], at: usize) -> usize
    requires { (rows ≤ most_side) × (shown.now.cols ≤ most_side) }
    ensures { let s = shown.now in
        let n = strand_names_of s.names in
        Put out.old at (rows_drawing n s.cols 0 s.layout.now s.marks.now rows) result out.new }
{
    let mut next = at.min(out.len());
    let mut bay = 0;
    for row in 0..rows {
        next = put_row(row, shown, bay, out, next);
        bay += shown.cols;
    }
    next
}

// The bays of a row, of which this is the first.
fn put_row(row: usize, shown: &Shown<'_>, first: usize, out: &mut [u8], at: usize) -> usize
    requires { (row ≤ most_side) × (shown.now.cols ≤ most_side) × (first ≤ most_side * most_side) }
    ensures { let s = shown.now in
        let n = strand_names_of s.names in
        Put out.old at (row_drawing n row 0 (drop first s.layout.now) (drop first s.marks.now) s.cols) result out.new }
{
    let down = 64 + 80 * (row as u64);
    let mut next = at.min(out.len());
    for col in 0..shown.cols {
        let bay = first + col;
        let drawn = Bay {
            across: 24 + 80 * (col as u64),
            down,
            tile: tile_at(shown.layout, bay),
            mark: mark_at(shown.marks, bay),
        };
        next = put_bay(&shown.names, drawn, out, next);
    }
    next
}

// The mark of a bay, 0 past the end of the marks: no Option, since a bay that has no mark is drawn as a free one.
fn mark_at(marks: &[u8], bay: usize) -> u8
    ensures { result ≡ get_or marks.now bay 0 }
{
    marks.get(bay).copied().unwrap_or(0)
}
