// The rows and columns of a case, and the bays that its grid has.
ghost use Rattle.std.specs.Prelude.{◌≡◌, ◌≤◌};
ghost use Rattle.case_parts.specs.Grid.{grid_read, bays_of};

use case_fields::number_field;
use text_fronts::least;
use units::MOST_SIDE;

// The side that a longer one is taken for: past the limit, so that it is refused whatever is lent.
const PAST_SIDE: usize = MOST_SIDE + 1;

// The sides of a grid.
#[derive(Clone, Copy)]
pub struct Grid {
    pub rows: usize,
    pub cols: usize,
}

// The rows and columns of a case, if both could be read.
pub fn read_grid(line: &[u8]) -> Option<Grid>
    ensures { result ≡ grid_read line.now }
{
    let rows = number_field(line, b"rows")? as usize;
    let cols = number_field(line, b"cols")? as usize;
    Some(Grid { rows, cols })
}

// The bays of a grid.
pub fn bays_of(rows: usize, cols: usize) -> usize
    ensures within { result ≤ 1089 }
    ensures answer { result ≡ bays_of rows cols }
{
    least(rows, PAST_SIDE) * least(cols, PAST_SIDE)
}
