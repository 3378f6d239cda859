// Answers the calls on glue names of a case file (docs/CASES.md): fields are read, the library is asked with tables of sevens, and the
// answer is put down.
#![tactic(auto)]

mod register;

ghost use Rattle.std.specs.Prelude.{◌≡◌};
ghost use Rattle.case_text.specs.Fields.{call_name};
ghost use Rattle.case_replies.specs.Replies.{is_known};
ghost use Rattle.case_names.specs.Calls.{knows};

use case_answer_lines::{put_text, unreadable};
use case_answer_lists::put_coded;
use case_fields::text_field;
use case_replies::Reply;
use case_text::{call_name, front, same};
use sdc_common::{is_from, self_and_inverse};

fn put_base(out: &mut [u8], base: &[u8], is_from: bool) -> usize {
    let at = put_coded(out, 0, b"base ", base);
    if is_from {
        return put_text(out, at, b" base");
    }
    put_text(out, at, b" inverse")
}

fn answer_base(line: &[u8], out: &mut [u8]) -> usize {
    let mut name = [0u8; 1024];
    let Some(n) = text_field(line, b"name", &mut name) else {
        return unreadable(out);
    };
    let given = front(&name, n);
    put_base(out, self_and_inverse(given), is_from(given))
}

// The answer to a line, put into `out` from its start.
pub fn answer(line: &[u8], out: &mut [u8]) -> Reply
    ensures { is_known result ≡ knows (call_name line.now) }
{
    let call = call_name(line);
    if same(call, b"self_and_inverse") {
        return Reply::To(answer_base(line, out));
    }
    if same(call, b"register") {
        return Reply::To(register::answer_register(line, out));
    }
    Reply::Unknown
}
