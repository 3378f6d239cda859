// The call `seeds_by_name`: seeds are read from their line, a table of sevens is lent, and what became of it is told.
ghost use Rattle.std.specs.Prelude.{◌≤◌, length};

use crate::names::read_names;
use case_answer_lines::{refused_with_tables, unreadable};
use case_answer_lists::put_small_numbers;
use case_field_reads::at_most;
use case_fields::number_field;
use case_lent::all_from;
use case_parts::{length_of, list_between, part_from, read_grid, text_between};
use sdc2d::{SeedList, StrandNames, seeds_by_name};
use text_entries::Entries;
use units::Refusal;

// How long each part of the seeds is.
#[derive(Clone, Copy)]
struct SeedLengths {
    places: usize,
    text: usize,
    offsets: usize,
}

impl SeedLengths {
    // The seeds in the two tables.
    fn seeds<'a>(&self, bytes: &'a [u8], numbers: &'a [usize]) -> SeedList<'a> {
        SeedList {
            places: part_from(numbers, 80, self.places),
            names: Entries {
                text: part_from(bytes, 16400, self.text),
                offsets: part_from(numbers, 144, self.offsets),
            },
        }
    }
}

// Their names from 16400 on; the places from 80, the offsets from 144.
fn read_seeds(line: &[u8], bytes: &mut [u8], numbers: &mut [usize]) -> Option<SeedLengths> {
    let text = text_between(line, b"seed_text", bytes, 16400, 32800)?;
    let places = list_between(line, b"places", numbers, 80, 144)?;
    let offsets = list_between(line, b"seed_offsets", numbers, 144, 208)?;
    Some(SeedLengths {
        places,
        text,
        offsets,
    })
}

// The numbers of a case, the length of the lent table among them.
#[derive(Clone, Copy)]
struct Asked {
    rows: usize,
    cols: usize,
    strands: usize,
    length: usize,
}

// The numbers, if all could be read and there is room for the table. Of so many places; no more are read than 64.
fn read_numbers(line: &[u8], places: usize) -> Option<Asked> {
    let grid = read_grid(line)?;
    let strands = number_field(line, b"strands")? as usize;
    let length = length_of(line, b"seeds_length", at_most(places, 64) / 2 * 3);
    if 128 < length {
        return None;
    }
    Some(Asked {
        rows: grid.rows,
        cols: grid.cols,
        strands,
        length,
    })
}

// The seeds, or a refusal with what became of the lent table. The list of `case_sets` is told likewise, of another type by another word: one
// function of a word and a function that puts the list down is no plainer.
fn put_seeds(out: &mut [u8], answer: Result<(), Refusal>, kept: bool, seeds: &[u32]) -> usize
    ensures { result ≤ length out.old }
{
    match answer {
        Err(refusal) => refused_with_tables(out, refusal, kept),
        Ok(()) => put_small_numbers(out, 0, b"seeds ", seeds),
    }
}

// Asks with the very table that is lent.
fn seeds_asked(
    asked: Asked,
    names: &StrandNames<'_>,
    given: &SeedList<'_>,
    seeds: &mut [u32],
    out: &mut [u8],
) -> usize
    ensures { result ≤ length out.old }
{
    let answer = seeds_by_name(asked.rows, asked.cols, asked.strands, names, given, seeds);
    put_seeds(out, answer, all_from(seeds, 0, 7), seeds)
}

// Lends a table of sevens that is as long as the case says.
fn seeds_lent(asked: Asked, names: &StrandNames<'_>, given: &SeedList<'_>, out: &mut [u8]) -> usize
    ensures { result ≤ length out.old }
{
    let mut seeds = [7u32; 128];
    let n = at_most(asked.length, 128);
    seeds_asked(asked, names, given, &mut seeds[0..n], out)
}

// The answer to a case.
pub(crate) fn answer_seeds(line: &[u8], out: &mut [u8]) -> usize
    ensures { result ≤ length out.old }
{
    let mut bytes = [0u8; 33136];
    let mut numbers = [0usize; 208];
    let names = read_names(line, &mut bytes, &mut numbers);
    let given = read_seeds(line, &mut bytes, &mut numbers);
    let (Some(names), Some(given)) = (names, given) else {
        return unreadable(out);
    };
    let Some(asked) = read_numbers(line, given.places) else {
        return unreadable(out);
    };
    seeds_lent(
        asked,
        &names.names(&bytes, &numbers),
        &given.seeds(&bytes, &numbers),
        out,
    )
}
