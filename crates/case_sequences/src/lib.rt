// Answers the calls on sequences of a case file (docs/CASES.md): their fields are read, the library is asked, and the answer is put down.
#![tactic(auto)]

ghost use Rattle.std.specs.Prelude.{◌≤◌, ◌≡◌, length};
ghost use Rattle.case_text.specs.Fields.{call_name};
ghost use Rattle.case_replies.specs.Replies.{is_known, answer_end};
ghost use Rattle.case_sequences.specs.Calls.{is_on_one, knows};

use case_answer_lines::{put_floats, put_signed, put_text, refused, unreadable};
use case_fields::{float_field, text_field};
use case_replies::{Reply, put_energy};
use case_text::{call_name, front, same};
use units::{BaseEnergy, Refusal};
use utils::{sequence_pair_str_dg_ds, string_dna_delta_g, string_dna_dg_ds, string_dna_hundredths};

fn put_base_energy(out: &mut [u8], answer: Result<BaseEnergy, Refusal>) -> usize
    ensures { result ≤ length out.old }
{
    match answer {
        Err(refusal) => refused(out, refusal),
        Ok(energy) => put_floats(out, 0, b"base_energy ", energy.dg, b" ", energy.ds),
    }
}

fn put_hundredths(out: &mut [u8], answer: Result<i32, Refusal>) -> usize
    ensures { result ≤ length out.old }
{
    match answer {
        Err(refusal) => refused(out, refusal),
        Ok(z) => {
            let word = put_text(out, 0, b"hundredths ");
            put_signed(out, word, z)
        }
    }
}

// The energy of a sequence at the temperature of the case.
fn answer_at_kelvin(line: &[u8], dna: &[u8], out: &mut [u8]) -> usize
    ensures { result ≤ length out.old }
{
    let Some(kelvin) = float_field(line, b"kelvin") else {
        return unreadable(out);
    };
    put_energy(out, string_dna_delta_g(dna, kelvin))
}

// The three calls on one sequence.
fn answer_sequence(line: &[u8], call: &[u8], dna: &[u8], out: &mut [u8]) -> usize
    ensures { result ≤ length out.old }
{
    if same(call, b"string_dna_dg_ds") {
        return put_base_energy(out, string_dna_dg_ds(dna));
    }
    if same(call, b"string_dna_hundredths") {
        return put_hundredths(out, string_dna_hundredths(dna));
    }
    answer_at_kelvin(line, dna, out)
}

// Reads the sequence.
fn answer_one(line: &[u8], call: &[u8], out: &mut [u8]) -> usize
    ensures { result ≤ length out.old }
{
    let mut dna = [0u8; 1024];
    let Some(n) = text_field(line, b"dna", &mut dna) else {
        return unreadable(out);
    };
    answer_sequence(line, call, front(&dna, n), out)
}

// Reads the two sequences of a pair.
fn answer_pair(line: &[u8], out: &mut [u8]) -> usize
    ensures { result ≤ length out.old }
{
    let mut a = [0u8; 1024];
    let Some(m) = text_field(line, b"a", &mut a) else {
        return unreadable(out);
    };
    let mut b = [0u8; 1024];
    let Some(n) = text_field(line, b"b", &mut b) else {
        return unreadable(out);
    };
    let answer = sequence_pair_str_dg_ds(front(&a, m), front(&b, n));
    put_base_energy(out, answer)
}

// Whether a call is on one sequence.
fn is_on_one(call: &[u8]) -> bool
    ensures { result ≡ is_on_one call.now }
{
    same(call, b"string_dna_dg_ds")
        | same(call, b"string_dna_delta_g")
        | same(call, b"string_dna_hundredths")
}

// The answer to a line, put into `out` from its start.
pub fn answer(line: &[u8], out: &mut [u8]) -> Reply
    ensures { (is_known result ≡ knows (call_name line.now)) × (answer_end result ≤ length out.old) }
{
    let call = call_name(line);
    if is_on_one(call) {
        return Reply::To(answer_one(line, call, out));
    }
    if same(call, b"sequence_pair_str_dg_ds") {
        return Reply::To(answer_pair(line, out));
    }
    Reply::Unknown
}
