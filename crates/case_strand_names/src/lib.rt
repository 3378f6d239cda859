// Answers the calls on names of strands of a case file (docs/CASES.md): one tile's name, and seeds by their names.
#![tactic(auto)]

mod names;
mod seeds;
mod tiles;

ghost use Rattle.std.specs.Prelude.{◌≤◌, ◌≡◌, length};
ghost use Rattle.case_text.specs.Fields.{call_name};
ghost use Rattle.case_replies.specs.Replies.{is_known, answer_end};
ghost use Rattle.case_strand_names.specs.Calls.{knows};

use case_replies::Reply;
use case_text::{call_name, same};

// The answer to a line, put into `out` from its start. Other crates of cases have an `answer` of this shape: the names of the calls, which are
// all it says, differ, so one that is given them is no plainer.
pub fn answer(line: &[u8], out: &mut [u8]) -> Reply
    ensures { (is_known result ≡ knows (call_name line.now)) × (answer_end result ≤ length out.old) }
{
    let call = call_name(line);
    if same(call, b"tile_name") {
        return Reply::To(tiles::answer_tile(line, out));
    }
    if same(call, b"seeds_by_name") {
        return Reply::To(seeds::answer_seeds(line, out));
    }
    Reply::Unknown
}
