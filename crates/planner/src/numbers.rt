// The layout as a sheet of numbers, one list a bay, which the register can import.
use crate::messages::{Told, say};
use crate::standard::write_out;
use bay_system::Sizes;
use sheet::write_sheet;
use text_fronts::front;

// Writes the sheet.
pub(crate) fn write_numbers(
    folder: &[u8],
    sizes: &Sizes,
    layout: &[u32],
    page: &mut [u8],
) -> Result<(), Told> {
    // The offsets of lists of one number each.
    let mut offsets = [0usize; 1025];
    for (i, offset) in offsets.iter_mut().enumerate() {
        *offset = i;
    }
    match write_sheet(
        sizes.rows,
        sizes.cols,
        front(&offsets, layout.len() + 1),
        layout,
        page,
    ) {
        Ok(end) => write_out(folder, front(page, end)),
        Err(_) => Err(say(folder, b"the layout does not fit a sheet")),
    }
}
