// Answers the call `bonds` of a case file (docs/CASES.md) on a system that was read: the bonds of its strands, strand 0 left out, if it passes its tests.
#![tactic(auto)]

ghost use Rattle.bay_system.specs.System.{system_of, system_verdict};
ghost use Rattle.case_bonds.specs.Asked.{Told};

use bay_system::System;
use case_answer_lines::{put_text, refused};
use case_answer_lists::put_next_float;
use energy_bays::edge_beta_between;
use sdc2d::{bond_with_scaffold, check_system, scaffold_glue_at, strand_glues_of};

// The place of an item in its list, as far as it matters: 0 for the first.
fn place(outer: usize, first: usize, inner: usize) -> usize {
    if outer == first && inner == 1 { 0 } else { 1 }
}

// The list of the bonds of each pair of strands; `north_south` is a bool, since it is the library's own parameter.
fn put_pairs(system: &System<'_>, north_south: bool, out: &mut [u8], at: usize) -> usize {
    let mut next = at;
    for first in 1..system.sizes.strands {
        for second in 1..system.sizes.strands {
            let x = edge_beta_between(system, north_south, first, second);
            next = put_next_float(out, next, place(first, 1, second), x);
        }
    }
    next
}

// The list of the bonds of each strand with each bay.
fn put_bays(system: &System<'_>, out: &mut [u8], at: usize) -> usize {
    let mut next = at;
    for bay in 0..system.scaffold.len() {
        let glue = scaffold_glue_at(system, bay);
        for strand in 1..system.sizes.strands {
            let x = bond_with_scaffold(system, glue, strand_glues_of(system, strand));
            next = put_next_float(out, next, place(bay, 0, strand), x);
        }
    }
    next
}

// The three lists of a system that passed its tests.
fn put_bonds(system: &System<'_>, out: &mut [u8]) -> usize {
    let we = put_text(out, 0, b"bonds we=");
    let we_end = put_pairs(system, false, out, we);
    let ns = put_text(out, we_end, b" ns=");
    let ns_end = put_pairs(system, true, out, ns);
    let bays = put_text(out, ns_end, b" scaffold=");
    put_bays(system, out, bays)
}

// The answer to `bonds` on a system.
pub fn answer_bonds(system: &System<'_>, out: &mut [u8]) -> usize
    ensures { Told (system_verdict (system_of system.now)) out.old result out.new }
{
    match check_system(system) {
        Err(r) => refused(out, r),
        Ok(()) => put_bonds(system, out),
    }
}
