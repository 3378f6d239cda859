// Answers the call `allowed_tiles` of a case file (docs/CASES.md) on a system that was read: the library is asked with a table of sevens.
#![tactic(auto)]

ghost use Rattle.std.specs.Prelude.{◌≤◌, length};
ghost use Rattle.text_put.specs.Puts.{Put};
ghost use Rattle.bay_system.specs.System.{system_of};
ghost use Rattle.bay_lists.specs.Lists.{constraints_of};
ghost use Rattle.case_sets.specs.Answer.{sets_text, asked_text};

use bay_lists::Constraints;
use bay_system::System;
use case_answer_lines::{refused_with_tables, unreadable};
use case_answer_lists::put_long_numbers;
use case_lent::all_from;
use case_parts::{bays_of, length_of};
use case_systems::read_constraints;
use sdc2d_thermo::allowed_tiles;
use units::Refusal;

// The sets, or a refusal with what became of the lent table.
fn put_sets(out: &mut [u8], answer: Result<(), Refusal>, kept: bool, sets: &[u64]) -> usize
    ensures { Put out.old 0 (sets_text answer kept sets.now) result out.new }
{
    match answer {
        Err(r) => refused_with_tables(out, r, kept),
        Ok(()) => put_long_numbers(out, 0, b"sets ", sets),
    }
}

// Asks with the very table that is lent.
fn sets_asked(
    system: &System<'_>,
    constraints: &Constraints<'_>,
    sets: &mut [u64],
    out: &mut [u8],
) -> usize
    ensures { let c = constraints_of constraints.now in
        Put out.old 0 (asked_text (system_of system.now) c sets.old) result out.new }
{
    let answer = allowed_tiles(system, constraints, sets);
    put_sets(out, answer, all_from(sets, 0, 7), sets)
}

// The answer to a case on a system.
pub fn answer_sets(line: &[u8], system: &System<'_>, out: &mut [u8]) -> usize
    ensures { result ≤ length out.old }
{
    let mut offsets = [0usize; 1025];
    let mut tiles = [0u32; 2977];
    let Some(lists) = read_constraints(line, &mut offsets, &mut tiles) else {
        return unreadable(out);
    };
    let bays = bays_of(system.sizes.rows, system.sizes.cols);
    let length = length_of(line, b"sets_length", bays);
    if 1089 < length {
        return unreadable(out);
    }
    let mut sets = [7u64; 1089];
    sets_asked(
        system,
        &lists.lent(&offsets, &tiles),
        &mut sets[..length],
        out,
    )
}
