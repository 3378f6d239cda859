// The price of a choice: the least energy of a layout that has a given strand on a given bay.
#![tactic(auto)]

ghost use Rattle.std.specs.Prelude.{◌≡◌, ◌≤◌, ◌<◌, leb, length, drop};
ghost use Rattle.units.specs.Refusals.{refuse_if, passes};
ghost use Rattle.bay_system.specs.System.{system_of};
ghost use Rattle.bay_lists.specs.Lists.{constraints_of};
ghost use Rattle.bay_given.specs.Given.{Given};
ghost use Rattle.bay_legal.specs.Sets.{empty_verdict};
ghost use Rattle.run_sets.specs.Finished.{FinishedBy};
ghost use Rattle.run_mfe.specs.RunBy.{SetsBy};
ghost use Rattle.run_choice_price.specs.Choice.{chosen_legal, chosen_sets};
ghost use Rattle.run_choice_price.specs.Price.{choice_verdict, price_answer, price_layout, price_energies, price_notes};

use bay_given::check_given;
use bay_legal::fill_sets;
use bay_legal_at::base_allowed_tiles_at;
use bay_lists::Constraints;
use bay_system::System;
use run_mfe::run_found;
use units::Refusal;

// Refusal 5 of the bay.
fn check_bay(bays: usize, bay: usize) -> Result<(), Refusal>
    ensures { result ≡ refuse_if (leb bays bay) Refusal.Shape }
{
    if bays <= bay {
        Err(Refusal::Shape)
    } else {
        Ok(())
    }
}

// Writes the sets of all bays under the choice to the front of a table: the chosen bay has what it permits without its list, cut to the strand.
fn chosen_sets(
    system: &System<'_>,
    constraints: &Constraints<'_>,
    bay: usize,
    strand: u32,
    sets: &mut [u64],
)
    requires given { Given (system_of system.now) (constraints_of constraints.now) }
    requires scaffold_in_bounds { length (system_of system.now).scaffold ≤ length sets.old }
    requires bay_in_bounds { bay < length (system_of system.now).scaffold }
    ensures sets { let s = system_of system.now in
        SetsBy (chosen_legal s (constraints_of constraints.now) bay strand) (length s.scaffold) sets.new }
    ensures rest { let bay_count = length (system_of system.now).scaffold in drop bay_count sets.new ≡ drop bay_count sets.old }
{
    fill_sets(system, constraints, sets);
    let permitted = base_allowed_tiles_at(system, bay);
    let alone = sets::only(strand);
    sets[bay] = sets::both(permitted, alone);
}

// The run of what passed 1 to 5 and of a choice: the sets are worked out aside, then 7, or the run. Its parameters are those of `mfe_with_choice`.
fn run_chosen(
    system: &System<'_>,
    constraints: &Constraints<'_>,
    bay: usize,
    strand: u32,
    layout: &mut [u32],
    energies: &mut [f64],
    notes: &mut [u8],
) -> Result<f64, Refusal>
    requires { choice_verdict (system_of system.now) (length layout.old) (constraints_of constraints.now) bay ≡ passes }
    ensures { let s = system_of system.now in
        let c = constraints_of constraints.now in
        let first = empty_verdict s.sizes.rows s.sizes.cols (chosen_sets s c bay strand) in
        let may = chosen_legal s c bay strand in
        FinishedBy first s may result layout.old layout.new energies.old energies.new notes.old notes.new }
{
    let mut sets = [0u64; 1024];
    chosen_sets(system, constraints, bay, strand, &mut sets);
    run_found(system, &sets, layout, energies, notes)
}

// The least energy of a layout that has the strand on the bay: the energy in kcal/mol, that layout row by row, and the ledger of the run, or a refusal. The
// bay's own list does not count, its seed and its glue do. A refusal writes nothing, but 10 sets the needed places of both tables to 0.
// The parameters are those that docs/RULES.md and docs/PROMISES.md name.
pub fn mfe_with_choice(
    system: &System<'_>,
    constraints: &Constraints<'_>,
    bay: usize,
    strand: u32,
    layout: &mut [u32],
    energies: &mut [f64],
    leaving: &mut [u8],
) -> Result<f64, Refusal>
    ensures answer { let s = system_of system.now in
        let c = constraints_of constraints.now in
        result ≡ price_answer s c bay strand (length layout.old) (length energies.old) (length leaving.old) }
    ensures layout { let s = system_of system.now in
        let c = constraints_of constraints.now in
        layout.new ≡ price_layout s c bay strand (length energies.old) (length leaving.old) layout.old }
    ensures energies { let s = system_of system.now in
        let c = constraints_of constraints.now in
        energies.new ≡ price_energies s c bay strand (length layout.old) (length leaving.old) energies.old }
    ensures leaving { let s = system_of system.now in
        let c = constraints_of constraints.now in
        leaving.new ≡ price_notes s c bay strand (length layout.old) (length energies.old) leaving.old }
{
    check_given(system, constraints, layout.len())?;
    check_bay(system.scaffold.len(), bay)?;
    run_chosen(system, constraints, bay, strand, layout, energies, leaving)
}
