// The mark of every bay.
ghost use Rattle.std.specs.Prelude.{◌≡◌, length};
ghost use Rattle.bay_system.specs.System.{system_of};
ghost use Rattle.bay_lists.specs.Lists.{constraints_of};
ghost use Rattle.bay_given.specs.Given.{Given, given_verdict};
ghost use Rattle.plan_marks.specs.Marks.{mark_of, marks_of, marks_after};

use bay_given::check_given;
use bay_lists::Constraints;
use bay_system::System;
use plan_reasons::{BayReason, bay_reason};
use units::Refusal;

// The mark of a reason.
fn mark_of(reason: BayReason) -> u8
    ensures { result ≡ mark_of reason }
{
    match reason {
        BayReason::Seeded(_) => 2,
        BayReason::KeptEmpty => 3,
        BayReason::Restricted => 1,
        BayReason::Free => 0,
    }
}

// Writes the marks of all bays, row by row, for a system that passed its tests.
fn fill_marks(system: &System<'_>, constraints: &Constraints<'_>, marks: &mut [u8])
    requires given { Given (system_of system.now) (constraints_of constraints.now) }
    requires marks_len { length marks.old ≡ length (system_of system.now).scaffold }
    ensures { marks.new ≡ marks_of (system_of system.now) (constraints_of constraints.now) }
{
    for (bay, mark) in marks.iter_mut().enumerate() {
        *mark = mark_of(bay_reason(system, constraints, bay));
    }
}

// Marks each bay of a grid: 0 free, 1 with a list, 2 seeded, 3 kept empty by a list of 0.
pub fn mark_bays(
    system: &System<'_>,
    constraints: &Constraints<'_>,
    marks: &mut [u8],
) -> Result<(), Refusal>
    ensures answer { let s = system_of system.now in
        result ≡ given_verdict s (length marks.old) (constraints_of constraints.now) }
    ensures marks { marks.new ≡ marks_after (system_of system.now) (constraints_of constraints.now) marks.old }
{
    check_given(system, constraints, marks.len())?;
    fill_marks(system, constraints, marks);
    Ok(())
}
