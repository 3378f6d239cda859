// One bay's block, written line by line: for each row q of what stays, the rows of the bay's strands.
#![tactic(auto)]

ghost use Rattle.std.specs.Prelude.{◌≡◌, ◌*◌, ◌≤◌, ◌<◌, length};
ghost use Rattle.units.specs.Limits.{most_strands};
ghost use Rattle.ledger_row_choice.specs.Row.{strands_of};
ghost use Rattle.ledger_block.specs.Block.{Writable, over, part, own_of, bay_line, bay_block, following_in};

use ledger_row_choice::{Bonds, Own, PAIRS, bond_at, row};
use units::MOST_STRANDS;

// The places of a block in the tables: from one place to another.
#[derive(Clone, Copy)]
pub struct Stretch {
    pub from: usize,
    pub end: usize,
}

// What the code knows of a bay when it writes its block. The two flags say which neighbours it has;
// `previous` and `leaving` are sets in any case.
#[derive(Clone, Copy)]
pub struct Bay {
    pub set: u64,
    pub leaving: u64,
    pub previous: u64,
    pub width: usize,
    pub below: bool,
    pub beside: bool,
}

// What is fixed of strand t on the bay, with u on the previous bay.
fn own_of(bay: Bay, here: &[f64], side: &[f64; PAIRS], u: usize, t: usize) -> Own
    requires { (u < most_strands) × (t < most_strands) × (most_strands ≤ length here.now) }
    ensures { result ≡ own_of bay here.now side.now u t }
{
    Own {
        strand: t,
        bay: here[t],
        side: bay.beside.then_some(bond_at(side, u, t)),
        below: bay.below,
    }
}

// Writes the rows of the bay's strands from `at` on, for row q of what stays and u on the previous
// bay, with the block before at `before`. The lent tables stay two parameters: a struct of `&mut`s
// would have each contract speak of its fields' loans, at entry and at exit.
fn put_line(
    bay: Bay,
    here: &[f64],
    bonds: &Bonds,
    q: usize,
    u: usize,
    before: Stretch,
    at: usize,
    energies: &mut [f64],
    notes: &mut [u8],
)
    requires u_lt_most_strands { (u < most_strands) × (q < bay.width) × (most_strands ≤ length here.now) }
    requires writable { Writable bay before at (length (strands_of bay.set)) (length energies.old) (length notes.old) }
    ensures energies_after { let held = part before energies.old in
        let line = bay_line (λ c. c.energy) bay here.now bonds.now held q u in
        energies.new ≡ over energies.old at line }
    ensures notes_after { let held = part before energies.old in
        let line = bay_line (λ c. c.who) bay here.now bonds.now held q u in
        notes.new ≡ over notes.old at line }
{
    let mut left = bay.set;
    let mut j = at;
    // A `while`: it counts no place, the set itself loses its lowest strand each turn.
    while !sets::is_empty(left) {
        let t = sets::first(left) as usize;
        let own = own_of(bay, here, &bonds.side, u, t);
        let held = &energies[before.from..before.end];
        let best = row(held, q, bay.width, bay.leaving, &bonds.major, own);
        energies[j] = best.energy;
        notes[j] = best.who as u8;
        left = sets::rest(left);
        j += 1;
    }
}

// The strand of the set behind u, and the first one behind the last.
fn following(set: u64, u: u32) -> u32
    requires { u < most_strands }
    ensures { result ≡ following_in set u }
{
    let v = sets::next(set, u + 1);
    if (v as usize) < MOST_STRANDS {
        v
    } else {
        sets::next(set, 0)
    }
}

// Writes the bay's block right behind the block before.
pub fn put_bay(
    bay: Bay,
    here: &[f64],
    bonds: &Bonds,
    before: Stretch,
    energies: &mut [f64],
    notes: &mut [u8],
)
    requires nonzero { (0 < length (strands_of bay.previous)) × (most_strands ≤ length here.now) }
    requires writable { Writable bay before before.end (bay.width * length (strands_of bay.set)) (length energies.old) (length notes.old) }
    ensures energies_after { let block = bay_block (λ c. c.energy) bay here.now bonds.now (part before energies.old) in
        energies.new ≡ over energies.old before.end block }
    ensures notes_after { let block = bay_block (λ c. c.who) bay here.now bonds.now (part before energies.old) in
        notes.new ≡ over notes.old before.end block }
{
    let count = sets::size(bay.set) as usize;
    let mut u = sets::next(bay.previous, 0);
    let mut at = before.end;
    for q in 0..bay.width {
        put_line(bay, here, bonds, q, u as usize, before, at, energies, notes);
        u = following(bay.previous, u);
        at += count;
    }
}
