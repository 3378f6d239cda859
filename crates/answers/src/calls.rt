// Takes a line to the library that knows its call.
use case_answer_lines::unreadable;
use case_replies::Reply;

// The calls on sheets and on systems; a call that nobody knows is unreadable.
fn answer_last(line: &[u8], out: &mut [u8]) -> usize {
    if let Reply::To(end) = case_sheets::answer(line, out) {
        return end;
    }
    if let Reply::To(end) = case_system_calls::answer(line, out) {
        return end;
    }
    unreadable(out)
}

// The calls on names and keys.
fn answer_names(line: &[u8], out: &mut [u8]) -> usize {
    if let Reply::To(end) = case_names::answer(line, out) {
        return end;
    }
    if let Reply::To(end) = case_strand_names::answer(line, out) {
        return end;
    }
    if let Reply::To(end) = case_keys::answer(line, out) {
        return end;
    }
    answer_last(line, out)
}

// The answer to one case, put into `out` from its start; how far it goes.
pub(crate) fn answer(line: &[u8], out: &mut [u8]) -> usize {
    if let Reply::To(end) = case_sequences::answer(line, out) {
        return end;
    }
    answer_names(line, out)
}
