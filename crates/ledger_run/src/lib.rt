// The whole run over numbers that it is handed: all blocks, the first least row of the last one, and the way back from it.
#![tactic(auto)]

ghost use Rattle.std.specs.Prelude.{◌≡◌, ◌<◌, length};
ghost use Rattle.ledger_fill.specs.Handed.{run_scan, Fillable};
ghost use Rattle.ledger_run.specs.Run.{LedgerRan};

mod clear;
mod least;

use clear::clear;
use least::least_row;
use ledger_row_choice::Bonds;
use ledger_way_back::{Place, trace};

// The least scan sum, with the ledger filled and the layout written in scan order. An answer that is
// NaN or minus infinity is refusal 10: then the needed places of both tables are 0, and the layout is
// as it was. The tables that it writes stay parameters, as those of `ledger_block::put_line`.
pub fn run(
    window: usize,
    sets: &[u64],
    bays: &[f64],
    bonds: &Bonds,
    order: &mut [u32],
    energies: &mut [f64],
    notes: &mut [u8],
) -> f64
    requires fillable { Fillable window sets.now bays.now (length energies.old) (length notes.old) }
    requires sets_nonzero { (0 < length sets.now) × (length order.old ≡ length sets.now) }
    ensures { let z = run_scan window sets.now bays.now bonds.now in
        let n = length sets.now in
        LedgerRan z n result order.old order.new energies.old energies.new notes.old notes.new }
{
    let last = ledger_fill::fill(window, sets, bays, bonds, energies, notes);
    let best = least_row(&energies[last.from..last.end]);
    if floats::is_bad(best.energy) {
        clear(energies, last.end, 0.0);
        clear(notes, last.end, 0);
        return best.energy;
    }
    let at = Place {
        row: best.who,
        rows: last.end - last.from,
        end: last.end,
    };
    trace(window, sets, notes, at, order);
    best.energy
}
