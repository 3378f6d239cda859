// Answers the call `mfe_configuration` of a case file (docs/CASES.md) on a system that was read: its need is asked with empty tables, then tables
// of sevens are lent, as long as the case says, and what became of them is told.
#![tactic(auto)]

mod lines;

use bay_lists::Constraints;
use bay_system::System;
use case_answer_lines::unreadable;
use case_constraints::read_constraints;
use case_field_reads::at_most;
use case_parts::{bays_of, length_of};
use lines::put_run;
use sdc2d_thermo::mfe_configuration;
use units::Refusal;

// The rows that a refusal 9 names; 0 of any other answer.
fn rows_named(answer: Result<f64, Refusal>) -> usize {
    match answer {
        Err(Refusal::NoRoom(need)) => need,
        _ => 0,
    }
}

// How many rows the ledger of a run needs, which is asked with a layout of that length and empty tables; 0 where it is refused before that,
// since that is the length of ledger to lend then.
fn need_of(system: &System<'_>, constraints: &Constraints<'_>, length: usize) -> usize {
    let mut layout = [0u32; 1089];
    let n = at_most(length, 1089);
    let mut energies: [f64; 0] = [];
    let mut leaving: [u8; 0] = [];
    rows_named(mfe_configuration(
        system,
        constraints,
        &mut layout[..n],
        &mut energies,
        &mut leaving,
    ))
}

// Asks for the need, and then for the run with as much of the ledger as the case says.
fn ledger_lent(
    line: &[u8],
    system: &System<'_>,
    constraints: &Constraints<'_>,
    layout: &mut [u32],
    out: &mut [u8],
) -> usize {
    let need = need_of(system, constraints, layout.len());
    let rows = length_of(line, b"energies_length", need);
    let notes = length_of(line, b"leaving_length", need);
    if 32768 < rows || 32768 < notes {
        return unreadable(out);
    }
    let mut energies = [7.0; 32768];
    let mut leaving = [7u8; 32768];
    let energies_lent = &mut energies[..rows.min(32768)];
    let leaving_lent = &mut leaving[..notes.min(32768)];
    let answer = mfe_configuration(system, constraints, layout, energies_lent, leaving_lent);
    put_run(out, answer, need, layout, energies_lent, leaving_lent)
}

// The answer to a case on a system.
pub fn answer_run(line: &[u8], system: &System<'_>, out: &mut [u8]) -> usize {
    let mut offsets = [0usize; 1025];
    let mut tiles = [0u32; 2977];
    let Some(read) = read_constraints(line, &mut offsets, &mut tiles) else {
        return unreadable(out);
    };
    let constraints = read.lent(&offsets, &tiles);
    let bays = bays_of(system.sizes.rows, system.sizes.cols);
    let length = length_of(line, b"layout_length", bays);
    if 1089 < length {
        return unreadable(out);
    }
    let mut layout = [7u32; 1089];
    ledger_lent(line, system, &constraints, &mut layout[..length], out)
}
