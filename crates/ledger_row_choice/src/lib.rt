// One row of a block: the lowest sum over the strands that leave the window.
#![tactic(auto)]

ghost use Rattle.std.specs.Prelude.{◌≡◌, ◌≤◌, ◌<◌, length};
ghost use Rattle.units.specs.Limits.{most_rows, most_strands};
ghost use Rattle.ledger_rows.specs.Blocks.{held_at};
ghost use Rattle.energy_bays.specs.ScanSum.{with_bond};
ghost use Rattle.ledger_row_choice.specs.Row.{strands_of, bond_at, own_adds, left_by, own_row};

use floats::Choice;
use units::MOST_STRANDS;

// How many pairs of strands there are: the places of a table of bonds.
pub const PAIRS: usize = MOST_STRANDS * MOST_STRANDS;

// The bonds of all pairs of strands: to the bay of the previous major line, and to the previous bay
// of the same line.
#[derive(Drop)]
pub struct Bonds {
    pub major: [f64; PAIRS],
    pub side: [f64; PAIRS],
}

// What is fixed of a strand in a row: its bay energy, its bond to the previous bay where that is of
// the same line, and whether there is a bay below, of the previous major line. `below` is a flag, since
// its strand is another one for each sum of the row: no single bond could stand in its place.
#[derive(Clone, Copy)]
pub struct Own {
    pub strand: usize,
    pub bay: f64,
    pub side: Option<f64>,
    pub below: bool,
}

// The energy in row i of the block before, and 0.0 where no bay is before.
fn held(before: &[f64], i: usize) -> f64
    ensures { result ≡ held_at before.now i }
{
    before.get(i).copied().unwrap_or(0.0)
}

// The bond of strand s with strand t, which comes after it. Those of one t stand side by side,
// since a row goes over s.
pub fn bond_at(table: &[f64; PAIRS], s: usize, t: usize) -> f64
    requires { (s < most_strands) × (t < most_strands) }
    ensures { result ≡ bond_at table.now s t }
{
    table[t * MOST_STRANDS + s]
}

// The bond added where the neighbour is there.
fn with_bond(there: bool, bond: f64, x: f64) -> f64
    ensures { result ≡ with_bond there bond x }
{
    if there { x + bond } else { x }
}

// What a strand adds, with strand s on the bay of the previous major line.
fn own_adds(own: Own, major: &[f64; PAIRS], s: usize) -> f64
    requires { (own.strand < most_strands) × (s < most_strands) }
    ensures { result ≡ own_adds own major.now s }
{
    let x = with_bond(own.below, bond_at(major, s, own.strand), own.bay);
    match own.side {
        Some(bond) => x + bond,
        None => x,
    }
}

// The sum with which strand s leaves row i of the block before.
fn candidate(before: &[f64], i: usize, major: &[f64; PAIRS], own: Own, s: usize) -> Choice
    requires { (own.strand < most_strands) × (s < most_strands) }
    ensures { result ≡ left_by own major.now before.now i s }
{
    Choice {
        energy: held(before, i) + own_adds(own, major, s),
        who: s,
    }
}

// The row for one strand: the lowest over the strands that leave, the one at position a from row
// a · width + q of the block before.
pub fn row(
    before: &[f64],
    q: usize,
    width: usize,
    leaving: u64,
    major: &[f64; PAIRS],
    own: Own,
) -> Choice
    requires { (own.strand < most_strands) × (q < width) × (width ≤ most_rows) × (0 < length (strands_of leaving)) }
    ensures { result ≡ own_row own major.now before.now leaving width q }
{
    let mut choice = candidate(before, q, major, own, sets::first(leaving) as usize);
    let mut left = sets::rest(leaving);
    let mut i = q + width;
    // A `while`: it counts no place, the set itself loses its lowest strand each turn.
    while !sets::is_empty(left) {
        let s = sets::first(left) as usize;
        choice = ledger_rows::lower(choice, candidate(before, i, major, own, s));
        left = sets::rest(left);
        i += width;
    }
    choice
}
