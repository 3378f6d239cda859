// The run over tables: the ledger, then the layout row by row.
ghost use Rattle.std.specs.Prelude.{◌≡◌, length};
ghost use Rattle.bay_scan_order.specs.Scan.{window};
ghost use Rattle.ledger_fill.specs.Handed.{run_scan, Fillable};
ghost use Rattle.run_system.specs.Steps.{OnBoard, Ran};

use energy_bays::is_bad;
use ledger_row_choice::Bonds;
use run_scan_tables::{lay_out, window};

// Fills the ledger from the tables of a run and lays out what its notes lead back to. The strands in scan order stand in `order` for a while.
// The tables that it writes stay parameters, as those of `ledger_block::put_line`.
pub(crate) fn run_over(
    rows: usize,
    cols: usize,
    scan: &[u64],
    sites: &[f64],
    bonds: &Bonds,
    order: &mut [u32],
    layout: &mut [u32],
    energies: &mut [f64],
    notes: &mut [u8],
) -> f64
    requires fillable { Fillable (window rows cols) scan.now sites.now (length energies.old) (length notes.old) }
    requires on_board { OnBoard rows cols (length scan.now) (length layout.old) }
    requires order_len { length order.old ≡ length scan.now }
    ensures { let k = run_scan (window rows cols) scan.now sites.now bonds.now in
        Ran k rows cols result layout.old layout.new energies.old energies.new notes.old notes.new }
{
    let sum = ledger_run::run(
        window(rows, cols),
        scan,
        sites,
        bonds,
        order,
        energies,
        notes,
    );
    if is_bad(sum) {
        return sum;
    }
    lay_out(rows, cols, order, layout);
    sum
}
