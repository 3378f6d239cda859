// The call `write_sheet`: lists are read from their line, a text of sevens is lent, as long as the case says, and what became of it is told.
use crate::lines::put_writing;
use case_answer_lines::unreadable;
use case_field_reads::list_field;
use case_parts::{length_of, read_grid};
use case_text::front;
use sheet::write_sheet;

// The numbers of a case, where there is room for the text.
#[derive(Clone, Copy)]
struct Asked {
    rows: usize,
    cols: usize,
    text: usize,
}

fn read_numbers(line: &[u8]) -> Option<Asked> {
    let grid = read_grid(line)?;
    let text = length_of(line, b"text_length", 65536);
    if 65536 < text {
        return None;
    }
    Some(Asked {
        rows: grid.rows,
        cols: grid.cols,
        text,
    })
}

// Asks with a text as long as the case says, once its numbers are read.
fn lists_read(line: &[u8], offsets: &[usize], tiles: &[u32], out: &mut [u8]) -> usize {
    let Some(asked) = read_numbers(line) else {
        return unreadable(out);
    };
    let mut text = [7u8; 65536];
    let lent = &mut text[..asked.text.min(65536)];
    let answer = write_sheet(asked.rows, asked.cols, offsets, tiles, lent);
    put_writing(out, answer, lent)
}

// The answer to a case: the sheet of its lists.
pub(crate) fn answer_writing(line: &[u8], out: &mut [u8]) -> usize {
    let mut offsets = [0usize; 1100];
    let mut tiles = [0u32; 65600];
    let ends = list_field(line, b"offsets", &mut offsets);
    let listed = list_field(line, b"tiles", &mut tiles);
    match (ends, listed) {
        (Some(m), Some(n)) => lists_read(line, front(&offsets, m), front(&tiles, n), out),
        _ => unreadable(out),
    }
}
