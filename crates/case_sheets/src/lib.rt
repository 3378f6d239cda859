// Answers the calls on constraint sheets of a case file (docs/CASES.md).
#![tactic(auto)]

mod lines;
mod reading;
mod writing;

ghost use Rattle.std.specs.Prelude.{◌≡◌};
ghost use Rattle.case_text.specs.Fields.{call_name};
ghost use Rattle.case_replies.specs.Replies.{is_known};
ghost use Rattle.case_sheets.specs.Calls.{knows};

use case_replies::Reply;
use case_text::{call_name, same};

// The answer to a line, put into `out` from its start. Other crates of cases have an `answer` of this shape: the names of the calls, which are
// all it says, differ, so one that is given them is no plainer.
pub fn answer(line: &[u8], out: &mut [u8]) -> Reply
    ensures { is_known result ≡ knows (call_name line.now) }
{
    let call = call_name(line);
    if same(call, b"read_sheet") {
        return Reply::To(reading::answer_reading(line, out));
    }
    if same(call, b"write_sheet") {
        return Reply::To(writing::answer_writing(line, out));
    }
    Reply::Unknown
}
