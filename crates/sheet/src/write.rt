// The call that writes a constraint sheet from offsets and tile lists.
ghost use Rattle.std.specs.Prelude.{◌≡◌};
ghost use Rattle.sheet.specs.Write.{write_answer, text_after};

use crate::grid::check_grid;
use bay_lists::Constraints;
use sheet_text::{put_sheet, sheet_length};
use units::Refusal;

// Writes the lists of a grid's bays into the front of a lent text, and answers how many bytes the sheet has.
pub fn write_sheet(
    rows: usize,
    cols: usize,
    offsets: &[usize],
    tiles: &[u32],
    text: &mut [u8],
) -> Result<usize, Refusal>
    ensures answer { result ≡ write_answer rows cols offsets.now tiles.now text.old }
    ensures text { text.new ≡ text_after rows cols offsets.now tiles.now text.old }
{
    check_grid(rows, cols)?;
    let lists = Constraints::Lists { offsets, tiles };
    if !lists.offsets_shaped(rows * cols) {
        return Err(Refusal::Shape);
    }
    let need = sheet_length(rows, cols, offsets, tiles);
    if text.len() < need {
        return Err(Refusal::NoRoom(need));
    }
    Ok(put_sheet(rows, cols, offsets, tiles, text))
}
