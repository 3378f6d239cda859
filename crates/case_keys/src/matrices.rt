// The cells of the two matrices that hold something, as text.
ghost use Rattle.std.specs.Prelude.{◌≤◌, max, length};

use case_answer_lines::{put_floats, put_text, put_value};

// One cell of row i and column j, unless both floats are 0.0.
fn put_cell(out: &mut [u8], at: usize, i: usize, j: usize, dg: f64, ds: f64) -> usize
    ensures { result ≤ max at (length out.old) }
{
    if dg == 0.0 && ds == 0.0 {
        return at;
    }
    let row = put_value(out, at, b" ", i);
    let cell = put_value(out, row, b",", j);
    put_floats(out, cell, b"=", dg, b",", ds)
}

// Each cell that holds something, row by row; a matrix of side 0 has none.
pub(crate) fn put_matrices(out: &mut [u8], side: usize, delta_g: &[f64], entropy: &[f64]) -> usize
    ensures { result ≤ length out.old }
{
    let mut next = put_text(out, 0, b"matrices");
    if side == 0 {
        return next;
    }
    let rows = delta_g.chunks(side).zip(entropy.chunks(side));
    for (i, (delta_g_row, entropy_row)) in rows.enumerate() {
        for (j, (dg, ds)) in delta_g_row.iter().zip(entropy_row.iter()).enumerate() {
            next = put_cell(out, next, i, j, *dg, *ds);
        }
    }
    next
}
