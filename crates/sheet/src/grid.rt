// The test of a grid's rows and columns, which reading and writing share.
ghost use Rattle.std.specs.Prelude.{◌≡◌};
ghost use Rattle.sheet.specs.Read.{grid_verdict};

use units::{MOST_SIDE, Refusal, from_one_to};

// Refusal 1.
pub(crate) fn check_grid(rows: usize, columns: usize) -> Result<(), Refusal>
    ensures { result ≡ grid_verdict rows columns }
{
    if from_one_to(MOST_SIDE, rows) && from_one_to(MOST_SIDE, columns) {
        Ok(())
    } else {
        Err(Refusal::Size)
    }
}
