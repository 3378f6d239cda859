// The call that fills a lent slice with the legal strands of every bay.
ghost use Rattle.std.specs.Prelude.{◌≡◌, ◌*◌, ◌≤◌, length, take};
ghost use Rattle.units.specs.Limits.{most_side};
ghost use Rattle.units.specs.Refusals.{passes};
ghost use Rattle.bay_system.specs.System.{system_of};
ghost use Rattle.bay_lists.specs.Lists.{constraints_of};
ghost use Rattle.bay_given.specs.Given.{given_verdict};
ghost use Rattle.bay_given.specs.Filling.{Fills};
ghost use Rattle.bay_legal.specs.Sets.{sets_of, empty_verdict, allowed_verdict, sets_after};

use crate::grid::{check_empty, fill_sets};
use bay_given::check_given;
use bay_lists::Constraints;
use bay_system::System;
use units::Refusal;

// Hands the sets at the front of a table out, unless one of them is empty: 7.
fn hand_out(rows: usize, cols: usize, own: &[u64], sets: &mut [u64]) -> Result<(), Refusal>
    requires rows_le_most_side { (rows ≤ most_side) × (cols ≤ most_side) × (length sets.old ≡ rows * cols) }
    requires sets_in_bounds { length sets.old ≤ length own.now }
    ensures { let found = take (length sets.old) own.now in Fills (empty_verdict rows cols found) found sets.old result sets.new }
{
    let found = &own[..sets.len()];
    check_empty(rows, cols, found)?;
    sets.copy_from_slice(found);
    Ok(())
}

// The sets of what passed 1 to 5. They are worked out aside, so that a refusal writes nothing.
fn sets_of(
    system: &System<'_>,
    constraints: &Constraints<'_>,
    sets: &mut [u64],
) -> Result<(), Refusal>
    requires { given_verdict (system_of system.now) (length sets.old) (constraints_of constraints.now) ≡ passes }
    ensures { let s = system_of system.now in
        let found = sets_of s (constraints_of constraints.now) in
        Fills (empty_verdict s.sizes.rows s.sizes.cols found) found sets.old result sets.new }
{
    let mut own = [0u64; 1024];
    fill_sets(system, constraints, &mut own);
    hand_out(system.sizes.rows, system.sizes.cols, &own, sets)
}

// Fills a lent slice with the legal strands of every bay, row by row, one word a bay.
pub fn allowed_tiles(
    system: &System<'_>,
    constraints: &Constraints<'_>,
    sets: &mut [u64],
) -> Result<(), Refusal>
    ensures answer { let s = system_of system.now in
        result ≡ allowed_verdict s (length sets.old) (constraints_of constraints.now) }
    ensures sets { sets.new ≡ sets_after (system_of system.now) (constraints_of constraints.now) sets.old }
{
    check_given(system, constraints, sets.len())?;
    sets_of(system, constraints, sets)
}
