// Reading a constraint sheet.
ghost use Rattle.std.specs.Prelude.{◌≡◌};
ghost use Rattle.sheet.specs.Read.{read_answer, offsets_after, tiles_after};

use crate::grid::check_grid;
use sheet_cells::check_sheet;
use sheet_lists::put_lists;
use units::Refusal;

// Reads a sheet over a grid: the offsets and the tiles of its lists, in reading order, and the answer is how many numbers there are.
// A refusal writes nothing, and places of the tiles beyond the count keep what they held.
#[tactic(auto, unfolding(sheet_cells::specs::Checks::count_in))]
pub fn read_sheet(
    rows: usize,
    cols: usize,
    text: &[u8],
    offsets: &mut [usize],
    tiles: &mut [u32],
) -> Result<usize, Refusal>
    ensures answer { result ≡ read_answer rows cols text.now offsets.old tiles.old }
    ensures offsets { offsets.new ≡ offsets_after rows cols text.now offsets.old tiles.old }
    ensures tiles { tiles.new ≡ tiles_after rows cols text.now offsets.old tiles.old }
{
    check_grid(rows, cols)?;
    let bays = rows * cols;
    let count = check_sheet(text, rows, cols)?;
    if offsets.len() != bays + 1 {
        return Err(Refusal::Shape);
    }
    if tiles.len() < count {
        return Err(Refusal::NoRoom(count));
    }
    put_lists(text, bays, offsets, tiles);
    Ok(count)
}
