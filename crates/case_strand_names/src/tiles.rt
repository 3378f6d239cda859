// The call `tile_name`: the name that is shown for a tile.
ghost use Rattle.std.specs.Prelude.{◌≤◌, length};

use crate::names::read_names;
use case_answer_lines::{put_value, unreadable};
use case_answer_lists::put_coded;
use case_field_reads::at_most;
use case_fields::number_field;
use sdc2d::{StrandNames, tile_name, tile_name_refusal};

// The name, or the number of the refusal: the line of this call has none of its values.
fn put_tile(strands: usize, names: &StrandNames<'_>, tile: u32, out: &mut [u8]) -> usize
    ensures { result ≤ length out.old }
{
    match tile_name_refusal(strands, names, tile) {
        Err(refusal) => put_value(out, 0, b"refused ", refusal.number() as usize),
        Ok(()) => put_coded(out, 0, b"name ", tile_name(strands, names, tile)),
    }
}

// The numbers of a case.
#[derive(Clone, Copy)]
struct Asked {
    strands: usize,
    tile: u32,
}

// A tile number past 32 bits is taken for the largest of them, which is no strand either.
fn tile_number(n: usize) -> u32 {
    at_most(n, 4294967295) as u32
}

fn read_numbers(line: &[u8]) -> Option<Asked> {
    let strands = number_field(line, b"strands")? as usize;
    let tile = tile_number(number_field(line, b"tile")? as usize);
    Some(Asked { strands, tile })
}

// The answer to a case.
pub(crate) fn answer_tile(line: &[u8], out: &mut [u8]) -> usize
    ensures { result ≤ length out.old }
{
    let mut bytes = [0u8; 33136];
    let mut numbers = [0usize; 80];
    let names = read_names(line, &mut bytes, &mut numbers);
    match (names, read_numbers(line)) {
        (Some(lengths), Some(asked)) => {
            let names = lengths.names(&bytes, &numbers);
            put_tile(asked.strands, &names, asked.tile, out)
        }
        _ => unreadable(out),
    }
}
