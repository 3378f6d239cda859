// Runs on a grid of 3 by 3 bays where every strand is legal on every bay, over an empty ledger: the refusal tells the need.
ghost use Rattle.std.specs.Prelude.{◌≤◌};

use bay_lists::Constraints;
use bay_system::{Sizes, System};
use sdc2d_thermo::mfe_configuration;
use units::Refusal;

// Asks with so many strands, at most 54. Each has glue 1 all round, and glue 1 binds to the scaffold's glue 0.
fn nine_bays(strands: usize) -> Result<f64, Refusal>
    requires { strands ≤ 54 }
{
    let all_ones = [1u32; 270];
    let logs = [0.0; 54];
    let mut layout = [0u32; 9];
    let system = System {
        sizes: Sizes {
            rows: 3,
            cols: 3,
            strands,
            glues: 2,
            kelvin: 310.15,
        },
        strand_glues: &all_ones[..strands * 5],
        scaffold: &[0; 9],
        delta_g: &[0.0, -1.0, 0.0, 0.0],
        entropy: &[0.0; 4],
        logs: &logs[..strands],
        seeds: &[],
    };
    mfe_configuration(&system, &Constraints::Absent, &mut layout, &mut [], &mut [])
}

// 53 + 53² + 7·53³ rows are below the limit: only the empty ledger is refused.
pub(crate) fn fifty_three_fit() -> bool {
    nine_bays(53) == Err(Refusal::NoRoom(1045001))
}

pub(crate) fn fifty_four_are_too_many() -> bool {
    nine_bays(54) == Err(Refusal::TooManyRows)
}
