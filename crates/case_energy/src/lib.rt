// Answers the call `state_g` of a case file (docs/CASES.md) on a system that was read.
#![tactic(auto)]

ghost use Rattle.text_put.specs.Puts.{Put};
ghost use Rattle.bay_system.specs.System.{system_of};
ghost use Rattle.case_energy.specs.Answer.{answer_text};

use bay_system::System;
use case_answer_lines::unreadable;
use case_field_reads::list_field;
use case_replies::put_energy;
use case_text::front;
use sdc2d_thermo::state_g;

// The answer to a case on a system: the energy of its layout.
pub fn answer_energy(line: &[u8], system: &System<'_>, out: &mut [u8]) -> usize
    ensures { Put out.old 0 (answer_text (system_of system.now) line.now) result out.new }
{
    let mut room = [0u32; 1089];
    let Some(n) = list_field(line, b"layout", &mut room) else {
        return unreadable(out);
    };
    put_energy(out, state_g(system, front(&room, n)))
}
