// What a library of calls says to a line of a case file, and the line that two of them answer with.
#![tactic(auto)]

ghost use Rattle.text_put.specs.Puts.{Put};
ghost use Rattle.case_replies.specs.Replies.{energy_text};

use case_answer_lines::{put_float, put_text, refused};
use units::Refusal;

// How far the answer goes that was put into a lent text from its start, or that the line's call is another library's.
// An `Option` would be no plainer: the name says what no answer means.
#[derive(Clone, Copy)]
pub enum Reply {
    To(usize),
    Unknown,
}

// `energy` and the float, or a refusal.
pub fn put_energy(out: &mut [u8], answer: Result<f64, Refusal>) -> usize
    ensures { Put out.old 0 (energy_text answer) result out.new }
{
    match answer {
        Err(refusal) => refused(out, refusal),
        Ok(x) => {
            let word = put_text(out, 0, b"energy ");
            put_float(out, word, x)
        }
    }
}
