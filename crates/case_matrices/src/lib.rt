// The two matrices of a system: 0.0 but for the cells that the case names; a later cell replaces an earlier one.
#![tactic(auto)]

ghost use Rattle.std.specs.Prelude.{◌≤◌, length, IfSome};

use case_field_reads::{at_most, list_field};
use case_fields::number_or;
use case_text::front;

// How long the lent matrices are.
#[derive(Clone, Copy)]
pub struct Matrices {
    pub delta_g: usize,
    pub entropy: usize,
}

// Puts 0.0 into the first places.
fn clear(table: &mut [f64], length: usize) {
    let n = length.min(table.len());
    table[..n].fill(0.0);
}

// The place of a cell. A number past the longest matrix, 66,049 places, is taken for that, which is past the end too.
fn place(row: usize, col: usize, glues: usize) -> usize {
    let r = at_most(row, 66049);
    let g = at_most(glues, 66049);
    let c = at_most(col, 66049);
    r * g + c
}

// Writes one place, unless it is past the end.
fn put(table: &mut [f64], length: usize, at: usize, x: f64) {
    if at < length && at < table.len() {
        table[at] = x;
    }
}

// Writes the cells in their order.
fn put_cells(
    cells: &[usize],
    energies: &[f64],
    glues: usize,
    lengths: Matrices,
    delta_g: &mut [f64],
    entropy: &mut [f64],
) {
    for (cell, energy) in cells.chunks_exact(2).zip(energies.chunks_exact(2)) {
        let at = place(cell[0], cell[1], glues);
        put(delta_g, lengths.delta_g, at, energy[0]);
        put(entropy, lengths.entropy, at, energy[1]);
    }
}

// The right length for so many glues; for more than there is room for, one that is too long.
fn square(glues: usize) -> usize {
    let g = at_most(glues, 258);
    g * g
}

// The length that a case gives for a matrix, if it is a number and no longer than the longest matrix.
fn length(line: &[u8], key: &[u8], glues: usize) -> Option<usize> {
    let n = number_or(line, key, square(glues))?;
    if 66049 < n { None } else { Some(n as usize) }
}

// Fills both matrices as far as the case lends them, if there is a ΔG and a ΔS for each cell and the lengths can be read.
pub fn matrices_into(
    line: &[u8],
    glues: usize,
    delta_g: &mut [f64],
    entropy: &mut [f64],
) -> Option<Matrices>
    ensures { IfSome result (λ read. (read.delta_g ≤ length delta_g.old) × (read.entropy ≤ length entropy.old)) }
{
    let mut cells = [0usize; 128];
    let n = list_field(line, b"cells", &mut cells)?;
    let mut energies = [0.0; 128];
    let m = list_field(line, b"energies", &mut energies)?;
    if n % 2 != 0 || n != m {
        return None;
    }
    let matrices = Matrices {
        delta_g: at_most(length(line, b"delta_g_length", glues)?, delta_g.len()),
        entropy: at_most(length(line, b"entropy_length", glues)?, entropy.len()),
    };
    clear(delta_g, matrices.delta_g);
    clear(entropy, matrices.entropy);
    put_cells(
        front(&cells, n),
        front(&energies, m),
        glues,
        matrices,
        delta_g,
        entropy,
    );
    Some(matrices)
}
