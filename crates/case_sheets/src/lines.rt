// Answer lines: the lists of a sheet, or its text, or a refusal with what became of the lent tables.
use case_answer_lines::{put_value, refused_with_tables};
use case_answer_lists::{put_coded, put_numbers, put_small_numbers};
use case_lent::{all_from, put_rest};
use case_text::front;
use units::Refusal;

// So many numbers, and the two tables that were written.
fn put_lists(out: &mut [u8], count: usize, offsets: &[usize], tiles: &[u32]) -> usize {
    let word = put_value(out, 0, b"lists ", count);
    let ends = put_numbers(out, word, b" offsets=", offsets);
    let end = put_small_numbers(out, ends, b" tiles=", front(tiles, count));
    put_rest(out, end, all_from(tiles, count, 7))
}

// What reading a sheet gave.
pub(crate) fn put_reading(
    out: &mut [u8],
    answer: Result<usize, Refusal>,
    offsets: &[usize],
    tiles: &[u32],
) -> usize {
    match answer {
        Ok(count) => put_lists(out, count, offsets, tiles),
        Err(refusal) => {
            let kept = all_from(offsets, 0, 7) && all_from(tiles, 0, 7);
            refused_with_tables(out, refusal, kept)
        }
    }
}

// So many bytes, and the text that was written.
fn put_sheet(out: &mut [u8], count: usize, text: &[u8]) -> usize {
    let word = put_value(out, 0, b"written ", count);
    let end = put_coded(out, word, b" text=", front(text, count));
    put_rest(out, end, all_from(text, count, 7))
}

// What writing a sheet gave.
pub(crate) fn put_writing(out: &mut [u8], answer: Result<usize, Refusal>, text: &[u8]) -> usize {
    match answer {
        Ok(count) => put_sheet(out, count, text),
        Err(refusal) => refused_with_tables(out, refusal, all_from(text, 0, 7)),
    }
}
