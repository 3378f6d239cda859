// The call on energy keys: fields are read, the library is asked with matrices of sevens, and the answer is put down.
ghost use Rattle.std.specs.Prelude.{◌≤◌, length};

use crate::matrices::put_matrices;
use crate::reading::{key_names, key_values, read_lists, read_numbers, read_texts};
use case_answer_lines::{refused_with_tables, unreadable};
use case_field_reads::{at_most, list_field};
use case_lent::all_floats;
use sdc2d::{KeyNames, KeyValues, energy_keys};

// Asks with the very matrices that are lent, of a side as the case says.
fn keys_into(
    names: &KeyNames<'_>,
    values: &KeyValues<'_>,
    side: usize,
    delta_g: &mut [f64],
    entropy: &mut [f64],
    out: &mut [u8],
) -> usize
    ensures { result ≤ length out.old }
{
    let answer = energy_keys(names, values, delta_g, entropy);
    let kept = all_floats(delta_g, 0, 7.0) && all_floats(entropy, 0, 7.0);
    match answer {
        Err(refusal) => refused_with_tables(out, refusal, kept),
        Ok(()) => put_matrices(out, side, delta_g, entropy),
    }
}

// The cells of a square matrix; no side that a case lends is longer than 257.
fn cells(side: usize) -> usize {
    let most = at_most(side, 257);
    most * most
}

// Lends as much of the matrices as the case says.
fn keys_lent(
    names: &KeyNames<'_>,
    values: &KeyValues<'_>,
    side: usize,
    delta_g: &mut [f64],
    entropy: &mut [f64],
    out: &mut [u8],
) -> usize
    ensures { result ≤ length out.old }
{
    let lent = cells(side);
    let g = at_most(lent, delta_g.len());
    let s = at_most(lent, entropy.len());
    keys_into(
        names,
        values,
        side,
        &mut delta_g[0..g],
        &mut entropy[0..s],
        out,
    )
}

// Reads the fields into tables of the function's own.
fn keys_read(
    line: &[u8],
    delta_g: &mut [f64; 66049],
    entropy: &mut [f64; 66049],
    out: &mut [u8],
) -> usize
    ensures { result ≤ length out.old }
{
    let mut bytes = [0u8; 32928];
    let texts = read_texts(line, &mut bytes);
    let mut numbers = [0usize; 492];
    let lists = read_lists(line, &mut numbers);
    let mut energies = [0.0; 128];
    let floats = list_field(line, b"numbers", &mut energies);
    let (Some(texts), Some(lists), Some(floats)) = (texts, lists, floats) else {
        return unreadable(out);
    };
    let Some(asked) = read_numbers(line, lists.bases) else {
        return unreadable(out);
    };
    keys_lent(
        &key_names(texts, lists, asked, &bytes, &numbers),
        &key_values(texts, lists, &bytes, &numbers, &energies, floats),
        asked.side,
        delta_g,
        entropy,
        out,
    )
}

// The answer to a case.
pub(crate) fn answer_keys(line: &[u8], out: &mut [u8]) -> usize
    ensures { result ≤ length out.old }
{
    let mut delta_g = [7.0; 66049];
    let mut entropy = [7.0; 66049];
    keys_read(line, &mut delta_g, &mut entropy, out)
}
