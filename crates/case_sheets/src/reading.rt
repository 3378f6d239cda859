// The call `read_sheet`: a text is read from its line, tables of sevens are lent, as long as the case says, and what became of them is told.
use crate::lines::put_reading;
use case_answer_lines::unreadable;
use case_fields::text_field;
use case_parts::{bays_of, length_of, read_grid};
use case_text::front;
use sheet::read_sheet;

// The numbers of a case, where there is room for the tables.
#[derive(Clone, Copy)]
struct Asked {
    rows: usize,
    cols: usize,
    offsets: usize,
    tiles: usize,
}

fn read_numbers(line: &[u8]) -> Option<Asked> {
    let grid = read_grid(line)?;
    let offsets = length_of(line, b"offsets_length", bays_of(grid.rows, grid.cols) + 1);
    let tiles = length_of(line, b"tiles_length", 65600);
    if 1100 < offsets || 65600 < tiles {
        return None;
    }
    Some(Asked {
        rows: grid.rows,
        cols: grid.cols,
        offsets,
        tiles,
    })
}

// Asks with tables as long as the case says, once its numbers are read.
fn text_read(line: &[u8], text: &[u8], out: &mut [u8]) -> usize {
    let Some(asked) = read_numbers(line) else {
        return unreadable(out);
    };
    let mut offsets = [7usize; 1100];
    let mut tiles = [7u32; 65600];
    let offsets_lent = &mut offsets[..asked.offsets.min(1100)];
    let tiles_lent = &mut tiles[..asked.tiles.min(65600)];
    let answer = read_sheet(asked.rows, asked.cols, text, offsets_lent, tiles_lent);
    put_reading(out, answer, offsets_lent, tiles_lent)
}

// The answer to a case: the lists of its sheet.
pub(crate) fn answer_reading(line: &[u8], out: &mut [u8]) -> usize {
    let mut text = [0u8; 196608];
    match text_field(line, b"text", &mut text) {
        Some(n) => text_read(line, front(&text, n), out),
        None => unreadable(out),
    }
}
