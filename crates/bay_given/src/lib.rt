// What is refused of what is given, the system and its constraints: 1 to 5. Every call on a system and constraints begins with this test.
#![tactic(auto)]

ghost use Rattle.std.specs.Prelude.{◌≡◌, ◌≤◌};
ghost use Rattle.units.specs.Limits.{most_side};
ghost use Rattle.bay_system.specs.System.{system_of};
ghost use Rattle.bay_lists.specs.Lists.{constraints_of};
ghost use Rattle.bay_given.specs.Given.{shape_verdict, given_verdict};

use bay_lists::Constraints;
use bay_system::{Sizes, System, check_system};
use units::Refusal;

// Refusal 5.
fn check_shape(z: Sizes, lent: usize, constraints: &Constraints<'_>) -> Result<(), Refusal>
    requires { (z.rows ≤ most_side) × (z.cols ≤ most_side) }
    ensures { result ≡ shape_verdict z lent (constraints_of constraints.now) }
{
    let bays = z.rows * z.cols;
    if lent == bays && constraints.offsets_shaped(bays) {
        Ok(())
    } else {
        Err(Refusal::Shape)
    }
}

// The test of a system, of its constraints, and of the length of a slice that is lent with a place for each bay.
pub fn check_given(
    system: &System<'_>,
    constraints: &Constraints<'_>,
    lent: usize,
) -> Result<(), Refusal>
    ensures { result ≡ given_verdict (system_of system.now) lent (constraints_of constraints.now) }
{
    check_system(system)?;
    check_shape(system.sizes, lent, constraints)
}
