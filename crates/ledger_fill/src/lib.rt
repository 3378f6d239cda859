// All blocks of the ledger, and how many rows they need, over numbers that it is handed: sets as words, two tables of bonds and the energies of each
// bay's strands. It knows nothing of glues. What is written is a stretch of the tables and nothing else, and a contract says so by one equation of lists.
#![tactic(auto)]

ghost use Rattle.std.specs.Prelude.{◌≡◌, ◌-◌, ◌*◌, ◌/◌, ◌≤◌, ◌<◌, length};
ghost use Rattle.units.specs.Limits.{most_rows};
ghost use Rattle.ledger_rows.specs.Scan.{EachHasStrand};
ghost use Rattle.ledger_rows.specs.Blocks.{need};
ghost use Rattle.ledger_row_choice.specs.Row.{strands_of};
ghost use Rattle.ledger_fill.specs.Handed.{set_scan, run_scan, Fillable, capped};
ghost use Rattle.ledger_fill.specs.Bays.{leaving_of, bay_of};
ghost use Rattle.ledger_fill.specs.Last.{LedgerFilled};

use ledger_block::{Bay, Stretch, put_bay};
use ledger_row_choice::Bonds;
use units::{MOST_ROWS, MOST_STRANDS};

// One row more than a ledger may have: a number and no `Option`, since `run_room::check_room` promises refusal 8 for each number past the limit.
const TOO_MANY_ROWS: usize = MOST_ROWS + 1;

// The set that leaves the window as bay k comes: strand 0 alone while none does.
pub fn leaving(window: usize, sets: &[u64], k: usize) -> u64
    requires k_in_bounds { k ≤ length sets.now }
    requires window_nonzero { 0 < window }
    ensures { result ≡ leaving_of window sets.now k }
{
    if window <= k { sets[k - window] } else { 1 }
}

// Bay k of the run, behind a block of so many rows.
fn bay_at(window: usize, sets: &[u64], k: usize, rows: usize) -> Bay
    requires window_nonzero { (0 < window) × (k < length sets.now) }
    requires nonzero { 0 < length (strands_of (leaving_of window sets.now k)) }
    ensures { result ≡ bay_of window sets.now k (rows / length (strands_of (leaving_of window sets.now k))) }
{
    let leaves = leaving(window, sets, k);
    Bay {
        set: sets[k],
        leaving: leaves,
        previous: sets[k.saturating_sub(1)],
        width: rows / sets::size(leaves) as usize,
        below: window <= k,
        beside: k % window != 0,
    }
}

// How many rows the bay's block has.
fn rows_of(bay: Bay) -> usize
    requires { bay.width ≤ most_rows }
    ensures { result ≡ bay.width * length (strands_of bay.set) }
{
    bay.width * sets::size(bay.set) as usize
}

// How many rows the ledger needs, and one more than it may have where that is too many. A product is
// formed of a size within the limit and the strands of one bay alone.
pub fn need(window: usize, sets: &[u64]) -> usize
    requires window_nonzero { 0 < window }
    requires each_has_strand { EachHasStrand (set_scan window sets.now) (length sets.now) }
    ensures { result ≡ capped (need (set_scan window sets.now) (length sets.now)) }
{
    let mut rows = 1;
    let mut used = 0;
    for k in 0..sets.len() {
        rows = rows_of(bay_at(window, sets, k, rows));
        used += rows;
        if MOST_ROWS < used {
            return TOO_MANY_ROWS;
        }
    }
    used
}

// Writes all blocks from place 0 on, one behind the other, and answers where the last one stands. Row k of `bays`, which
// has a place for each strand that a system may have, holds the energies of bay k's strands.
pub fn fill(
    window: usize,
    sets: &[u64],
    bays: &[f64],
    bonds: &Bonds,
    energies: &mut [f64],
    notes: &mut [u8],
) -> Stretch
    requires { Fillable window sets.now bays.now (length energies.old) (length notes.old) }
    ensures { let z = run_scan window sets.now bays.now bonds.now in
        LedgerFilled z (length sets.now) result energies.old energies.new notes.old notes.new }
{
    let mut rows = 1;
    let mut last = Stretch { from: 0, end: 0 };
    for k in 0..sets.len() {
        let bay = bay_at(window, sets, k, rows);
        let at = k * MOST_STRANDS;
        let here = &bays[at..at + MOST_STRANDS];
        put_bay(bay, here, bonds, last, energies, notes);
        rows = rows_of(bay);
        last = Stretch {
            from: last.end,
            end: last.end + rows,
        };
    }
    last
}
