// Answer lines: the least energy with layout and ledger, or a refusal with what it left in the lent slices.
use case_answer_lines::{put_float, put_text, put_value, refused};
use case_answer_lists::{put_next_float, put_next_number, put_small_numbers};
use case_lent::{all_floats, all_from, put_rest};
use case_text::front;
use units::Refusal;

fn put_energies(out: &mut [u8], at: usize, energies: &[f64]) -> usize {
    let mut next = put_text(out, at, b" energies=");
    for (row, energy) in energies.iter().enumerate() {
        next = put_next_float(out, next, row, *energy);
    }
    next
}

fn put_leaving(out: &mut [u8], at: usize, leaving: &[u8]) -> usize {
    let mut next = put_text(out, at, b" leaving=");
    for (row, note) in leaving.iter().enumerate() {
        next = put_next_number(out, next, row, u64::from(*note));
    }
    next
}

// The ledger, where it is short.
fn put_ledger(out: &mut [u8], at: usize, need: usize, energies: &[f64], leaving: &[u8]) -> usize {
    if 256 < need {
        return at;
    }
    let next = put_energies(out, at, front(energies, need));
    put_leaving(out, next, front(leaving, need))
}

// Whether the places of both tables past the need hold what they held.
fn rest_kept(need: usize, energies: &[f64], leaving: &[u8]) -> bool {
    all_floats(energies, need, 7.0) && all_from(leaving, need, 7)
}

fn put_least(
    out: &mut [u8],
    least: f64,
    need: usize,
    layout: &[u32],
    energies: &[f64],
    leaving: &[u8],
) -> usize {
    let word = put_text(out, 0, b"least ");
    let energy = put_float(out, word, least);
    let strands = put_small_numbers(out, energy, b" layout=", layout);
    let rows = put_value(out, strands, b" need=", need);
    let end = put_ledger(out, rows, need, energies, leaving);
    put_rest(out, end, rest_kept(need, energies, leaving))
}

// Whether the needed places of both tables are 0.
fn front_cleared(need: usize, energies: &[f64], leaving: &[u8]) -> bool {
    all_floats(front(energies, need), 0, 0.0) && all_from(front(leaving, need), 0, 0)
}

// Whether the lent slices are as they were.
fn all_kept(layout: &[u32], energies: &[f64], leaving: &[u8]) -> bool {
    all_from(layout, 0, 7) && rest_kept(0, energies, leaving)
}

// Whether the needed places of the tables are cleared, and all others as they were.
fn all_cleared(need: usize, layout: &[u32], energies: &[f64], leaving: &[u8]) -> bool {
    all_from(layout, 0, 7)
        && front_cleared(need, energies, leaving)
        && rest_kept(need, energies, leaving)
}

// What became of the lent slices.
fn put_state(out: &mut [u8], at: usize, kept: bool, cleared: bool) -> usize {
    if kept {
        return put_text(out, at, b" kept");
    }
    if cleared {
        return put_text(out, at, b" cleared");
    }
    put_text(out, at, b" changed")
}

fn put_refusal(
    out: &mut [u8],
    refusal: Refusal,
    need: usize,
    layout: &[u32],
    energies: &[f64],
    leaving: &[u8],
) -> usize {
    let kept = all_kept(layout, energies, leaving);
    let cleared = all_cleared(need, layout, energies, leaving);
    let at = refused(out, refusal);
    put_state(out, at, kept, cleared)
}

// The line of a run that needs so many rows.
pub(crate) fn put_run(
    out: &mut [u8],
    answer: Result<f64, Refusal>,
    need: usize,
    layout: &[u32],
    energies: &[f64],
    leaving: &[u8],
) -> usize {
    match answer {
        Err(r) => put_refusal(out, r, need, layout, energies, leaving),
        Ok(x) => put_least(out, x, need, layout, energies, leaving),
    }
}
