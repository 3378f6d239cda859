// Answers the cases of the files that its arguments name, or of standard input where there is none (docs/CASES.md): a line for each case.
#![tactic(auto)]

mod calls;
mod lines;

use case_text::front;
use lines::{Rooms, answer_some};
use std::alloc::Global;
use std::io::Read;

// Answers a file, a read at a time. A proved loop has to end, and nothing says that a file does, so its turns are counted up to a number that no
// run reaches.
fn answer_file(alloc: Global, file: &mut impl Read, name: &[u8], rooms: &mut Rooms<'_>) {
    let mut held = 0;
    for _ in 0..u64::MAX {
        match answer_some(alloc, file, name, held, rooms) {
            Some(count) => held = count,
            None => return,
        }
    }
}

// Answers the file that an argument names.
fn answer_argument(rt: &HostRuntime, place: usize, rooms: &mut Rooms<'_>) {
    let mut path = io::buffer();
    let n = text_host::arg(rt, place, &mut path);
    let name = front(&path, n);
    match text_host::open_read(rt, name) {
        Ok(mut file) => answer_file(rt.alloc(), &mut file, name, rooms),
        Err(error) => text_host::fail(rt.alloc(), name, error),
    }
}

// Answers one file after the other, or standard input where none is named.
fn answer_all(rt: &HostRuntime, line: &mut [u8; 1048576], out: &mut [u8; 1310720]) {
    let mut rooms = Rooms { line, out };
    let words = text_host::arg_count(rt);
    if words < 2 {
        return answer_file(rt.alloc(), &mut rt.stdin(), b"standard input", &mut rooms);
    }
    for place in 1..words {
        answer_argument(rt, place, &mut rooms);
    }
}

fn main(rt: HostRuntime) {
    let mut line = [0u8; 1048576];
    let mut out = [0u8; 1310720];
    answer_all(&rt, &mut line, &mut out);
}
