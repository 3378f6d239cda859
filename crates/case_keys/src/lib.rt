// Answers the call on energy keys of a case file (docs/CASES.md).
#![tactic(auto)]

mod keys;
mod matrices;
mod reading;

ghost use Rattle.std.specs.Prelude.{◌≤◌, ◌≡◌, length};
ghost use Rattle.case_text.specs.Fields.{call_name};
ghost use Rattle.case_replies.specs.Replies.{is_known, answer_end};
ghost use Rattle.case_keys.specs.Calls.{knows};

use case_replies::Reply;
use case_text::{call_name, same};

// The answer to a line, put into `out` from its start.
pub fn answer(line: &[u8], out: &mut [u8]) -> Reply
    ensures { (is_known result ≡ knows (call_name line.now)) × (answer_end result ≤ length out.old) }
{
    if same(call_name(line), b"energy_keys") {
        return Reply::To(keys::answer_keys(line, out));
    }
    Reply::Unknown
}
