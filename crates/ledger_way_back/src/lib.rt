// The way back from a row of the last block to the filling that the notes lead to.
#![tactic(auto)]

ghost use Rattle.std.specs.Prelude.{◌≡◌, ◌+◌, ◌%◌, ◌<◌, length, get_or};
ghost use Rattle.ledger_row_choice.specs.Row.{strands_of};
ghost use Rattle.ledger_fill.specs.Handed.{set_scan};
ghost use Rattle.ledger_way_back.specs.Tracing.{in_order, trace_in, Traceable};
ghost use Rattle.ledger_way_back.specs.Places.{place_of, OnBlock, row_back};

// A place on the way: a row of a block, how many rows the block has, and where it ends.
#[derive(Clone, Copy)]
pub struct Place {
    pub row: usize,
    pub rows: usize,
    pub end: usize,
}

// The strand at position p of the set.
fn member(set: u64, p: usize) -> u32
    requires { p < length (strands_of set) }
    ensures { result ≡ get_or (strands_of set) p 0 }
{
    let mut t = sets::next(set, 0);
    for _ in 0..p {
        t = sets::next(set, t + 1);
    }
    t
}

// The strand of bay k in row i of its block: the newest bay is the fastest.
fn strand_at(sets: &[u64], k: usize, i: usize) -> u32
    requires k_in_bounds { k < length sets.now }
    requires nonzero { 0 < length (strands_of (get_or sets.now k 0)) }
    ensures { let strands = strands_of (get_or sets.now k 0) in result ≡ get_or strands (i % length strands) 0 }
{
    let set = sets[k];
    member(set, i % sets::size(set) as usize)
}

// From a row of bay k's block to the row of the block before from which it came.
fn step_back(window: usize, sets: &[u64], notes: &[u8], k: usize, at: Place) -> Place
    requires traceable { Traceable window sets.now notes.now }
    requires k_in_bounds { k < length sets.now }
    requires on_block { OnBlock (set_scan window sets.now) (k + 1) at }
    ensures { let z = set_scan window sets.now in result ≡ place_of z k (row_back z notes.now k at.row) }
{
    let set = sets[k];
    let count = sets::size(set) as usize;
    let width = at.rows / count;
    let from = at.end - at.rows;
    let place = from + at.row;
    let leaves = ledger_fill::leaving(window, sets, k);
    let position = sets::position(leaves, u32::from(notes[place])) as usize;
    Place {
        row: position * width + at.row / count,
        rows: sets::size(leaves) as usize * width,
        end: from,
    }
}

// Writes, from the last bay to the first, the strands that the notes lead back to from a row of the
// last block. The order is that of the scan.
pub fn trace(window: usize, sets: &[u64], notes: &[u8], last: Place, order: &mut [u32])
    requires traceable { Traceable window sets.now notes.now }
    requires order_len { length order.old ≡ length sets.now }
    requires on_block { OnBlock (set_scan window sets.now) (length sets.now) last }
    ensures { let z = set_scan window sets.now in
        order.new ≡ in_order (trace_in z notes.now (length sets.now) last.row) }
{
    let mut at = last;
    for k in (0..sets.len()).rev() {
        order[k] = strand_at(sets, k, at.row);
        at = step_back(window, sets, notes, k, at);
    }
}
