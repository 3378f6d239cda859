// The program's arguments, and files by the bytes of their paths.
#![tactic(auto)]

ghost use Rattle.io.specs.Counts.{IsPrefixLen};

use std::alloc::Global;
use std::env::{Env, FillError};
use std::fs;
use std::fs::{File, Files};
use std::io::{Error, ErrorKind, Result};

// Puts an argument at the start of a lent slice and answers its length, 0 where it is missing or longer than the slice.
pub fn arg(rt: &impl Env, place: usize, room: &mut [u8]) -> usize
    ensures { IsPrefixLen result room.new }
{
    rt.arg(place, room).unwrap_or(0)
}

// Whether an argument is there and as long as a lent slice at most.
pub fn fits(rt: &impl Env, place: usize, room: &mut [u8]) -> bool {
    rt.arg(place, room).is_ok()
}

// Whether no argument stands at a place.
fn is_missing(rt: &impl Env, place: usize) -> bool {
    let mut room = [0u8; 1];
    matches!(rt.arg(place, &mut room), Err(FillError::NotPresent))
}

// How many arguments the program was started with, its own name among them.
pub fn arg_count(rt: &impl Env) -> usize {
    (0..usize::MAX)
        .find(|&place| is_missing(rt, place))
        .unwrap_or(usize::MAX)
}

// A path as text; a path that is no text names no file here.
fn path_text(path: &[u8]) -> Result<&str> {
    str::from_utf8(path).map_err(|_| Error::from(ErrorKind::InvalidInput))
}

// Opens a file for reading.
pub fn open_read<R: Files>(rt: &R, path: &[u8]) -> Result<R::File> {
    File::open(rt, path_text(path)?)
}

// Creates a file that is not there yet, for writing.
pub fn create<R: Files>(rt: &R, path: &[u8]) -> Result<R::File> {
    File::create_new(rt, path_text(path)?)
}

// Gives a file another name, in place of a file that had it.
pub fn rename(rt: &impl Files, from: &[u8], to: &[u8]) -> Result<()> {
    fs::rename(rt, path_text(from)?, path_text(to)?)
}

// Takes a file away.
pub fn remove(rt: &impl Files, path: &[u8]) -> Result<()> {
    fs::remove_file(rt, path_text(path)?)
}

// Where the words for an error end: what std puts behind them is the error's number.
fn words_length(text: &str) -> usize {
    text.find(" (os error ").unwrap_or(text.len())
}

// Writes a line to standard error: what failed, a colon and the system's words for it.
pub fn fail(alloc: Global, what: &[u8], error: Error) {
    match format!(in alloc; "{error}") {
        Ok(text) => fail_in_words(what, text.as_str()),
        Err(_) => fail_in_words(what, "out of memory"),
    }
}

fn fail_in_words(what: &[u8], text: &str) {
    let words = text_fronts::front(text.as_bytes(), words_length(text));
    io::write_all(2, what);
    io::write_all(2, b": ");
    io::write_all(2, words);
    io::write_all(2, b"\n");
}
