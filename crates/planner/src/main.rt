// Plans folders of sheets: the layout of least energy of each, and why every bay holds what it holds.
#![tactic(auto)]

mod bays;
mod drawing;
mod files;
mod folder;
mod glues;
mod grid;
mod keys;
mod lent;
mod line;
mod lists;
mod messages;
mod numbers;
mod outcome;
mod reasons;
mod refusals;
mod seeds;
mod shapes;
mod standard;
mod strands;
mod summary;
mod tables;
mod task;
mod temperature;
mod unplanned;
mod usage;
mod why;
mod wish;
mod words;

use crate::bays::from_one;
use crate::folder::plan_folder;
use crate::line::Line;
use crate::messages::Told;
use crate::task::Task;
use crate::usage::{asked_for, write_help};
use crate::wish::Wish;
use crate::words::{folders, is_folder, is_there, word_at};

// Says which folder is planned now.
fn write_progress(folder: &[u8], number: usize, count: usize) {
    let mut room = [0u8; 8192];
    let mut line = Line::over(&mut room);
    line.put_with(b"planning ", number);
    line.put_with(b" of ", count);
    line.put(b": ");
    line.put(folder);
    line.put(b"\n");
    io::write_all(2, line.text());
}

// Plans the folder that the word at a place names, which is the one with a number, from 1, of so many.
fn plan_word(
    rt: &HostRuntime,
    wish: Wish,
    place: usize,
    number: usize,
    count: usize,
) -> Result<(), Told> {
    let mut room = io::buffer();
    let folder = word_at(rt, place, &mut room);
    if is_there(rt, b"--progress") {
        write_progress(folder, number, count);
    }
    plan_folder(&Task { rt, folder, wish })
}

// Plans one folder after the other, also behind one that could not be planned.
fn plan_words(rt: &HostRuntime, wish: Wish, count: usize) -> Result<(), Told> {
    let mut number = 0;
    let mut planned = Ok(());
    for place in 1..text_host::arg_count(rt) {
        if is_folder(rt, place) {
            number = from_one(number);
            planned = plan_word(rt, wish, place, number, count).and(planned);
        }
    }
    planned
}

// Does what the words ask for.
fn follow(rt: &HostRuntime) -> Result<(), Told> {
    if is_there(rt, b"--help") {
        return write_help();
    }
    let count = folders(rt);
    let wish = asked_for(rt, count)?;
    plan_words(rt, wish, count)
}

// Where it is asked for, what went well is told on descriptor 3.
fn main(rt: HostRuntime) {
    if follow(&rt).is_ok() && is_there(&rt, b"--outcome") {
        io::write_all(3, b"planned\n");
    }
}
