// The sets of all bays in a table of the caller's, and the first bay that has none.
ghost use Rattle.std.specs.Prelude.{◌≡◌, ◌*◌, ◌≤◌, length, take, drop};
ghost use Rattle.units.specs.Limits.{most_side};
ghost use Rattle.bay_system.specs.System.{system_of};
ghost use Rattle.bay_legal_at.specs.Legal.{is_legal};
ghost use Rattle.bay_lists.specs.Lists.{constraints_of};
ghost use Rattle.bay_given.specs.Given.{Given};
ghost use Rattle.bay_legal.specs.Sets.{sets_to, empty_verdict};

use bay_legal_at::constrained_allowed_tiles_at;
use bay_lists::Constraints;
use bay_scan_order::bay_at;
use bay_system::System;
use units::Refusal;

// Writes the sets of all bays, row by row, to the front of a table; the rest of it stays.
pub fn fill_sets(system: &System<'_>, constraints: &Constraints<'_>, sets: &mut [u64])
    requires given { Given (system_of system.now) (constraints_of constraints.now) }
    requires scaffold_in_bounds { length (system_of system.now).scaffold ≤ length sets.old }
    ensures sets { let s = system_of system.now in
        let bay_count = length s.scaffold in
        take bay_count sets.new ≡ sets_to (is_legal s (constraints_of constraints.now)) bay_count }
    ensures rest { let bay_count = length (system_of system.now).scaffold in drop bay_count sets.new ≡ drop bay_count sets.old }
{
    for bay in 0..system.scaffold.len() {
        sets[bay] = constrained_allowed_tiles_at(system, constraints, bay);
    }
}

// Refusal 7, with the first bay in scan order whose set is empty.
pub fn check_empty(rows: usize, cols: usize, sets: &[u64]) -> Result<(), Refusal>
    requires { (rows ≤ most_side) × (cols ≤ most_side) × (length sets.now ≡ rows * cols) }
    ensures { result ≡ empty_verdict rows cols sets.now }
{
    for k in 0..sets.len() {
        let bay = bay_at(rows, cols, k);
        if sets[bay] == 0 {
            return Err(Refusal::NoLegalStrand(bay));
        }
    }
    Ok(())
}
