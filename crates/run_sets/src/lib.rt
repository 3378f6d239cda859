// The run over sets that stand row by row: 8, 9 and 10, or the least energy, its layout and the ledger.
#![tactic(auto)]

ghost use Rattle.std.specs.Prelude.{◌*◌, ◌≤◌, length};
ghost use Rattle.bay_system.specs.System.{system_of};
ghost use Rattle.bay_bonds.specs.Readable.{Readable};
ghost use Rattle.ledger_rows.specs.Scan.{EachHasStrand};
ghost use Rattle.ledger_fill.specs.Handed.{set_scan};
ghost use Rattle.run_scan_tables.specs.Order.{scan_sets};
ghost use Rattle.bay_scan_order.specs.Scan.{window};
ghost use Rattle.run_tables.specs.Tables.{ReadableBays};
ghost use Rattle.run_system.specs.Steps.{OnBoard};
ghost use Rattle.run_sets.specs.Finished.{FinishedScan};

use bay_system::System;
use energy_state::answered;
use run_room::check_room;
use run_scan_tables::{MOST_BAYS, fill_scan, window};
use run_system::run_system;
use units::Refusal;

// The run over sets in scan order: refusals 8, 9 and 10, or the least energy. The clauses on the system are those of `run_sets`, whose callers have a
// plain `System`: a type that keeps these facts would be one more for them.
fn run_scan(
    system: &System<'_>,
    scan: &[u64],
    layout: &mut [u32],
    energies: &mut [f64],
    notes: &mut [u8],
) -> Result<f64, Refusal>
    requires readable { Readable (system_of system.now) }
    requires readable_bays { ReadableBays (system_of system.now) }
    requires each_has_strand { let s = system_of system.now in
        EachHasStrand (set_scan (window s.sizes.rows s.sizes.cols) scan.now) (length scan.now) }
    requires on_board { let s = system_of system.now in OnBoard s.sizes.rows s.sizes.cols (length scan.now) (length layout.old) }
    ensures { let s = system_of system.now in
        FinishedScan s scan.now result layout.old layout.new energies.old energies.new notes.old notes.new }
{
    let z = system.sizes;
    let need = ledger_fill::need(window(z.rows, z.cols), scan);
    check_room(need, energies.len(), notes.len())?;
    let sum = run_system(system, scan, layout, energies, notes);
    answered(sum, z.kelvin)
}

// The run over sets that stand row by row.
pub fn run_sets(
    system: &System<'_>,
    sets: &[u64],
    layout: &mut [u32],
    energies: &mut [f64],
    notes: &mut [u8],
) -> Result<f64, Refusal>
    requires readable { Readable (system_of system.now) }
    requires readable_bays { ReadableBays (system_of system.now) }
    requires each_has_strand { let z = (system_of system.now).sizes in
        EachHasStrand (set_scan (window z.rows z.cols) (scan_sets z.rows z.cols sets.now)) (z.rows * z.cols) }
    requires on_board { let z = (system_of system.now).sizes in OnBoard z.rows z.cols (z.rows * z.cols) (length layout.old) }
    requires cols_in_bounds { let z = (system_of system.now).sizes in z.rows * z.cols ≤ length sets.now }
    ensures { let s = system_of system.now in
        let scan = scan_sets s.sizes.rows s.sizes.cols sets.now in
        FinishedScan s scan result layout.old layout.new energies.old energies.new notes.old notes.new }
{
    let z = system.sizes;
    let bays = z.rows * z.cols;
    let mut scan = [0u64; MOST_BAYS];
    fill_scan(z.rows, z.cols, sets, &mut scan);
    run_scan(system, &scan[..bays], layout, energies, notes)
}
