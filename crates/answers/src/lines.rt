// Reads a file into a room for one long line, and answers each line as soon as it stands there whole.
ghost use Rattle.std.specs.Prelude.{◌≤◌, length};

use crate::calls::answer;
use case_answer_lines::put_text;
use case_text::{front, is_case};
use std::alloc::Global;
use std::io::Read;

// Standard output's number.
const STDOUT: i32 = 1;

// The room for one line, and the room for its answer.
#[derive(Drop)]
pub(crate) struct Rooms<'a> {
    pub(crate) line: &'a mut [u8],
    pub(crate) out: &'a mut [u8],
}

// Writes a line that stands in `out`, whose end comes beside it as `answer` gives it.
fn write_line(out: &mut [u8], at: usize) {
    let end = put_text(out, at, b"\n");
    io::write_all(STDOUT, front(out, end));
}

// Writes the answer to one line, if it is a case. No answer is longer than the room for it.
fn answer_line(line: &[u8], out: &mut [u8]) {
    if !is_case(line) {
        return;
    }
    let at = answer(line, out);
    write_line(out, at);
}

// Writes that a line is too long, if it is a case.
fn answer_long_line(line: &[u8], out: &mut [u8]) {
    if !is_case(line) {
        return;
    }
    let at = put_text(out, 0, b"unreadable: a line of more than 1048575 bytes");
    write_line(out, at);
}

// Answers each line that ends in the text; the place behind the last of them.
fn answer_lines(text: &[u8], out: &mut [u8]) -> usize
    ensures { result ≤ length text.now }
{
    let Some(last) = text.iter().rposition(|byte| *byte == b'\n') else {
        return 0;
    };
    for line in text[..last].split(|byte| *byte == b'\n') {
        answer_line(line, out);
    }
    last + 1
}

// One read; 0 bytes at the end of the file, and where it fails, which is told.
fn read_once(alloc: Global, file: &mut impl Read, name: &[u8], room: &mut [u8]) -> usize
    ensures { result ≤ length room.old }
{
    match file.read(room) {
        Ok(bytes) => bytes,
        Err(error) => {
            text_host::fail(alloc, name, error);
            0
        }
    }
}

// Answers the lines that end among the first bytes of the room, and moves the begin of the next to its front; how many bytes that are. Where the
// room is full of one line, that is told, and the rest of the line is read as a comment.
fn answer_held(end: usize, room: &mut [u8], out: &mut [u8]) -> usize
    requires { end ≤ length room.old }
{
    let next = answer_lines(&room[..end], out);
    if 0 < next || end < room.len() {
        room.copy_within(next..end, 0);
        return end - next;
    }
    answer_long_line(room, out);
    if let Some(first) = room.first_mut() {
        *first = b'#';
    }
    1
}

// Reads once behind the begin of a line, which has so many bytes, and answers what is then there. The answer is how many bytes begin the next
// line, nothing at the end of the file, whose last line may lack its end.
pub(crate) fn answer_some(
    alloc: Global,
    file: &mut impl Read,
    name: &[u8],
    held: usize,
    rooms: &mut Rooms<'_>,
) -> Option<usize> {
    let line = &mut *rooms.line;
    let out = &mut *rooms.out;
    let at = held.min(line.len());
    let got = read_once(alloc, file, name, &mut line[at..]);
    if got == 0 {
        answer_line(&line[..at], out);
        return None;
    }
    Some(answer_held(at + got, line, out))
}
