// The least-energy run of a system: the call, and the run over sets that are worked out aside.
#![tactic(auto)]

ghost use Rattle.std.specs.Prelude.{◌≡◌, length};
ghost use Rattle.units.specs.Refusals.{passes};
ghost use Rattle.bay_system.specs.System.{system_of};
ghost use Rattle.bay_lists.specs.Lists.{constraints_of};
ghost use Rattle.bay_legal_at.specs.Legal.{is_legal};
ghost use Rattle.bay_given.specs.Given.{given_verdict};
ghost use Rattle.bay_legal.specs.Sets.{sets_of, empty_verdict};
ghost use Rattle.run_sets.specs.Finished.{FinishedBy};
ghost use Rattle.run_mfe.specs.RunBy.{SomeSets, Ready, FinishedFrom};
ghost use Rattle.run_mfe.specs.Run.{mfe_answer, layout_after, energies_after, notes_after};

use bay_given::check_given;
use bay_legal::{check_empty, fill_sets};
use bay_lists::Constraints;
use bay_system::System;
use run_scan_tables::MOST_BAYS;
use run_sets::run_sets;
use units::Refusal;

// The run over the sets at the front of a table, whatever they were made by: 7, or the run.
pub fn run_found(
    system: &System<'_>,
    sets: &[u64],
    layout: &mut [u32],
    energies: &mut [f64],
    notes: &mut [u8],
) -> Result<f64, Refusal>
    requires ready { Ready (system_of system.now) (length layout.old) }
    requires some_sets { SomeSets (length (system_of system.now).scaffold) sets.now }
    ensures { let s = system_of system.now in
        FinishedFrom s sets.now result layout.old layout.new energies.old energies.new notes.old notes.new }
{
    let z = system.sizes;
    check_empty(z.rows, z.cols, &sets[..system.scaffold.len()])?;
    run_sets(system, sets, layout, energies, notes)
}

// The run of what passed 1 to 5: the sets are worked out aside, then 7, or the run.
fn run_given(
    system: &System<'_>,
    constraints: &Constraints<'_>,
    layout: &mut [u32],
    energies: &mut [f64],
    notes: &mut [u8],
) -> Result<f64, Refusal>
    requires { given_verdict (system_of system.now) (length layout.old) (constraints_of constraints.now) ≡ passes }
    ensures { let s = system_of system.now in
        let c = constraints_of constraints.now in
        let first = empty_verdict s.sizes.rows s.sizes.cols (sets_of s c) in
        FinishedBy first s (is_legal s c) result layout.old layout.new energies.old energies.new notes.old notes.new }
{
    let mut sets = [0u64; MOST_BAYS];
    fill_sets(system, constraints, &mut sets);
    run_found(system, &sets, layout, energies, notes)
}

// The layout of least energy: its energy in kcal/mol, the layout row by row, and the ledger of the run, or a refusal. A refusal writes nothing, but 10
// sets the needed places of both tables to 0.
pub fn mfe_configuration(
    system: &System<'_>,
    constraints: &Constraints<'_>,
    layout: &mut [u32],
    energies: &mut [f64],
    leaving: &mut [u8],
) -> Result<f64, Refusal>
    ensures answer { let s = system_of system.now in
        let c = constraints_of constraints.now in
        result ≡ mfe_answer s c (length layout.old) (length energies.old) (length leaving.old) }
    ensures layout { let s = system_of system.now in
        let c = constraints_of constraints.now in
        layout.new ≡ layout_after s c (length energies.old) (length leaving.old) layout.old }
    ensures energies { let s = system_of system.now in
        let c = constraints_of constraints.now in
        energies.new ≡ energies_after s c (length layout.old) (length leaving.old) energies.old }
    ensures leaving { let s = system_of system.now in
        let c = constraints_of constraints.now in
        leaving.new ≡ notes_after s c (length layout.old) (length energies.old) leaving.old }
{
    check_given(system, constraints, layout.len())?;
    run_given(system, constraints, layout, energies, leaving)
}
