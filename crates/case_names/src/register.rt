// The call `register`: names and sizes are read from their line, tables of sevens are lent, and what became of them is told.
use case_answer_lines::{put_value, refused_with_tables, unreadable};
use case_answer_lists::{put_numbers, put_small_numbers};
use case_field_reads::at_most;
use case_fields::number_field;
use case_lent::{all_from, put_rest};
use case_parts::{bays_of, length_of, list_between, part_from, read_grid, text_between};
use case_text::front;
use sdc2d::register;
use text_entries::Names;
use units::{BASE_NUMBERS, MOST_BASES};

// The numbers of a case, the lengths of the lent tables among them.
#[derive(Clone, Copy)]
struct Asked {
    rows: usize,
    cols: usize,
    strands: usize,
    glues: usize,
    scaffold: usize,
    bases: usize,
}

// Whether there is room for lent tables of these lengths.
fn all_fit(glues: usize, scaffold: usize, bases: usize) -> bool {
    glues <= 330 && scaffold <= 1089 && bases <= 256
}

// The numbers, if all could be read and there is room. A count of strands past the limit is taken for 66, which is refused
// whatever is lent.
fn read_numbers(line: &[u8]) -> Option<Asked> {
    let grid = read_grid(line)?;
    let strands = number_field(line, b"strands")? as usize;
    let most = at_most(strands, 66);
    let glues = length_of(line, b"glues_length", most * 5);
    let scaffold = length_of(line, b"scaffold_length", bays_of(grid.rows, grid.cols));
    let bases = length_of(line, b"bases_length", BASE_NUMBERS);
    if !all_fit(glues, scaffold, bases) {
        return None;
    }
    Some(Asked {
        rows: grid.rows,
        cols: grid.cols,
        strands,
        glues,
        scaffold,
        bases,
    })
}

// The numbers of a list of bases; what stands behind them is 0.
fn put_bases(out: &mut [u8], at: usize, bases: &[usize], count: usize) -> usize {
    let used = at_most(count, MOST_BASES) * 2;
    let next = put_numbers(out, at, b" bases=", front(bases, used));
    put_rest(out, next, all_from(bases, used, 0))
}

fn put_registered(
    out: &mut [u8],
    count: usize,
    glues: &[u32],
    scaffold: &[u32],
    bases: &[usize],
) -> usize {
    let word = put_value(out, 0, b"registered ", count);
    let strands = put_small_numbers(out, word, b" glues=", glues);
    let bays = put_small_numbers(out, strands, b" scaffold=", scaffold);
    put_bases(out, bays, bases, count)
}

// Whether each place of the three tables still holds 7.
fn all_kept(glues: &[u32], scaffold: &[u32], bases: &[usize]) -> bool {
    all_from(glues, 0, 7) && all_from(scaffold, 0, 7) && all_from(bases, 0, 7)
}

// Asks with the very tables that are lent.
fn register_asked(
    asked: Asked,
    names: &Names<'_>,
    glues: &mut [u32],
    scaffold: &mut [u32],
    bases: &mut [usize],
    out: &mut [u8],
) -> usize {
    let answer = register(
        asked.rows,
        asked.cols,
        asked.strands,
        names,
        glues,
        scaffold,
        bases,
    );
    let kept = all_kept(glues, scaffold, bases);
    match answer {
        Err(r) => refused_with_tables(out, r, kept),
        Ok(count) => put_registered(out, count, glues, scaffold, bases),
    }
}

// Lends tables of sevens that are as long as the case says.
fn register_lent(asked: Asked, names: &Names<'_>, out: &mut [u8]) -> usize {
    let mut glues = [7u32; 330];
    let mut scaffold = [7u32; 1089];
    let mut bases = [7usize; 256];
    let g = at_most(asked.glues, 330);
    let s = at_most(asked.scaffold, 1089);
    let b = at_most(asked.bases, 256);
    register_asked(
        asked,
        names,
        &mut glues[0..g],
        &mut scaffold[0..s],
        &mut bases[0..b],
        out,
    )
}

// The answer to a case: the names and the presence bytes stand in one table, the latter from 16400 on.
pub(crate) fn answer_register(line: &[u8], out: &mut [u8]) -> usize {
    let mut bytes = [0u8; 17800];
    let text = text_between(line, b"text", &mut bytes, 0, 16400);
    let present = list_between(line, b"present", &mut bytes, 16400, 17800);
    let mut numbers = [0usize; 1400];
    let offsets = list_between(line, b"offsets", &mut numbers, 0, 1400);
    let (Some(text), Some(present), Some(offsets)) = (text, present, offsets) else {
        return unreadable(out);
    };
    let names = Names {
        text: part_from(&bytes, 0, text),
        offsets: front(&numbers, offsets),
        present: part_from(&bytes, 16400, present),
    };
    match read_numbers(line) {
        Some(asked) => register_lent(asked, &names, out),
        None => unreadable(out),
    }
}
