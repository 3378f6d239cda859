// Answers the calls on systems of a case file (docs/CASES.md): a system is read from its line once, and what is asked of it goes to the
// library of its call.
#![tactic(auto)]

ghost use Rattle.std.specs.Prelude.{◌≡◌};
ghost use Rattle.case_text.specs.Fields.{call_name};
ghost use Rattle.case_replies.specs.Replies.{is_known};
ghost use Rattle.case_system_calls.specs.Calls.{knows};

use bay_system::System;
use case_answer_lines::unreadable;
use case_bonds::answer_bonds;
use case_energy::answer_energy;
use case_replies::Reply;
use case_runs::answer_run;
use case_sets::answer_sets;
use case_systems::read_system;
use case_text::{call_name, front, same};

// Whether a call is on a system.
fn is_known(call: &[u8]) -> bool
    ensures { result ≡ knows call.now }
{
    same(call, b"allowed_tiles")
        | same(call, b"bonds")
        | same(call, b"state_g")
        | same(call, b"mfe_configuration")
}

// The call is asked of a system that could be read.
fn ask(line: &[u8], system: &System<'_>, out: &mut [u8]) -> usize {
    let call = call_name(line);
    if same(call, b"bonds") {
        answer_bonds(system, out)
    } else if same(call, b"allowed_tiles") {
        answer_sets(line, system, out)
    } else if same(call, b"state_g") {
        answer_energy(line, system, out)
    } else {
        answer_run(line, system, out)
    }
}

// Reads the fields of a system; the matrices are room for its own.
fn system_into(
    line: &[u8],
    delta_g: &mut [f64; 66049],
    entropy: &mut [f64; 66049],
    out: &mut [u8],
) -> usize {
    let mut strand_glues = [0u32; 325];
    let mut scaffold = [0u32; 1089];
    let mut logs = [0.0; 65];
    let mut seeds = [0u32; 36];
    let Some(read) = read_system(
        line,
        &mut strand_glues,
        &mut scaffold,
        delta_g,
        entropy,
        &mut logs,
        &mut seeds,
    ) else {
        return unreadable(out);
    };
    let system = System {
        sizes: read.sizes,
        strand_glues: front(&strand_glues, read.strand_glues),
        scaffold: front(&scaffold, read.scaffold),
        delta_g: front(delta_g, read.delta_g),
        entropy: front(entropy, read.entropy),
        logs: front(&logs, read.logs),
        seeds: front(&seeds, read.seeds),
    };
    ask(line, &system, out)
}

fn answer_system(line: &[u8], out: &mut [u8]) -> usize {
    let mut delta_g = [0.0; 66049];
    let mut entropy = [0.0; 66049];
    system_into(line, &mut delta_g, &mut entropy, out)
}

// The answer to a line, put into `out` from its start.
pub fn answer(line: &[u8], out: &mut [u8]) -> Reply
    ensures { is_known result ≡ knows (call_name line.now) }
{
    if is_known(call_name(line)) {
        return Reply::To(answer_system(line, out));
    }
    Reply::Unknown
}
