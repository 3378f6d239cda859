// The run over a system that passed its tests: the tables are worked out once, then the ledger is filled.
ghost use Rattle.std.specs.Prelude.{◌*◌, ◌≤◌, length, take};
ghost use Rattle.units.specs.Limits.{most_strands};
ghost use Rattle.bay_system.specs.System.{system_of};
ghost use Rattle.bay_bonds.specs.Readable.{Readable};
ghost use Rattle.bay_scan_order.specs.Scan.{window};
ghost use Rattle.run_tables.specs.Tables.{site_table, ReadableBays};
ghost use Rattle.ledger_fill.specs.Handed.{run_scan, Roomy};
ghost use Rattle.run_least_layout.specs.Run.{table_scan};
ghost use Rattle.run_system.specs.Steps.{OnBoard, Ran};

use crate::tables::run_over;
use bay_system::{Sizes, System};
use ledger_row_choice::{Bonds, PAIRS};
use run_scan_tables::{MOST_BAYS, by_rows};
use run_tables::{MOST_SITES, fill_bonds, fill_sites};
use units::MOST_STRANDS;

// Lends the fronts of the tables that bays fill, as the last thing that a function does: nothing is known afterwards of what stands
// behind them. It takes slices, since a part of an array behind a reference cannot be lent; one by one, as `ledger_block::put_line` does.
fn run_fronts(
    z: Sizes,
    scan: &[u64],
    sites: &[f64],
    bonds: &Bonds,
    order: &mut [u32],
    layout: &mut [u32],
    energies: &mut [f64],
    notes: &mut [u8],
) -> f64
    requires roomy { Roomy (window z.rows z.cols) scan.now (length energies.old) (length notes.old) }
    requires on_board { OnBoard z.rows z.cols (length scan.now) (length layout.old) }
    requires scan_in_bounds { (length scan.now ≤ length order.old) × (length scan.now * most_strands ≤ length sites.now) }
    ensures { let front = take (length scan.now * most_strands) sites.now in
        let k = run_scan (window z.rows z.cols) scan.now front bonds.now in
        Ran k z.rows z.cols result layout.old layout.new energies.old energies.new notes.old notes.new }
{
    let bays = scan.len();
    let count = bays * MOST_STRANDS;
    run_over(
        z.rows,
        z.cols,
        scan,
        &sites[..count],
        bonds,
        &mut order[..bays],
        layout,
        energies,
        notes,
    )
}

// Works out the energies of the bays, then runs. Their table is long: it is handed over as the array that it is, and made a slice here.
// What is asked of the system stays in the clauses: a type that keeps it would be one more for the callers of the public functions.
fn run_sites(
    system: &System<'_>,
    scan: &[u64],
    bonds: &Bonds,
    sites: &mut [f64; MOST_SITES],
    layout: &mut [u32],
    energies: &mut [f64],
    notes: &mut [u8],
) -> f64
    requires readable { Readable (system_of system.now) }
    requires readable_bays { ReadableBays (system_of system.now) }
    requires roomy { let s = system_of system.now in
        Roomy (window s.sizes.rows s.sizes.cols) scan.now (length energies.old) (length notes.old) }
    requires on_board { let s = system_of system.now in OnBoard s.sizes.rows s.sizes.cols (length scan.now) (length layout.old) }
    ensures { let s = system_of system.now in
        let k = run_scan (window s.sizes.rows s.sizes.cols) scan.now (site_table s) bonds.now in
        Ran k s.sizes.rows s.sizes.cols result layout.old layout.new energies.old energies.new notes.old notes.new }
{
    fill_sites(system, sites);
    let mut order = [0u32; MOST_BAYS];
    run_fronts(
        system.sizes,
        scan,
        sites,
        bonds,
        &mut order,
        layout,
        energies,
        notes,
    )
}

// Works out the bonds of all pairs of strands and the energies of the bays, each once, and runs.
pub fn run_system(
    system: &System<'_>,
    scan: &[u64],
    layout: &mut [u32],
    energies: &mut [f64],
    notes: &mut [u8],
) -> f64
    requires readable { Readable (system_of system.now) }
    requires readable_bays { ReadableBays (system_of system.now) }
    requires roomy { let s = system_of system.now in
        Roomy (window s.sizes.rows s.sizes.cols) scan.now (length energies.old) (length notes.old) }
    requires on_board { let s = system_of system.now in OnBoard s.sizes.rows s.sizes.cols (length scan.now) (length layout.old) }
    ensures { let s = system_of system.now in
        let k = table_scan s scan.now in
        Ran k s.sizes.rows s.sizes.cols result layout.old layout.new energies.old energies.new notes.old notes.new }
{
    let lines = by_rows(system.sizes.rows, system.sizes.cols);
    let mut bonds = Bonds {
        major: [0.0; PAIRS],
        side: [0.0; PAIRS],
    };
    fill_bonds(system, lines, &mut bonds.major);
    fill_bonds(system, !lines, &mut bonds.side);
    let mut sites = [0.0f64; MOST_SITES];
    run_sites(system, scan, &bonds, &mut sites, layout, energies, notes)
}
