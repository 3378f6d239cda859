// The files of a folder, each read whole into a lent slice.
#![tactic(auto)]

ghost use Rattle.std.specs.Prelude.{◌≡◌, length};
ghost use Rattle.text_put.specs.Puts.{Put};
ghost use Rattle.sheet_files.specs.Paths.{path_of};
ghost use Rattle.sheet_files.specs.Rooms.{LeavesRoom, part_of, AtMost};

use std::fs::Files;
use std::io::{Read, Result as ReadResult};
use text_put::put_text;

// Why a file was not read to its end: it could not be opened, it fills the room and may be longer, or a read failed after so
// many bytes.
#[derive(Clone, Copy)]
pub enum Unread {
    Unopened,
    Full,
    Failed(usize),
}

// Puts the path of a file in a folder at the start of a lent slice, and answers where it ends.
pub fn put_path(folder: &[u8], name: &[u8], path: &mut [u8]) -> usize
    ensures { Put path.old 0 (path_of folder.now name.now) result path.new }
{
    let slash = put_text(path, 0, folder);
    let from = put_text(path, slash, b"/");
    put_text(path, from, name)
}

// How many bytes a read gave, none where it failed. No bytes are the end of the file.
#[tactic(auto, unfolding(crate::specs::Rooms::part_of))]
fn part_of(got: ReadResult<usize>, room: &[u8]) -> Option<usize>
    ensures value { result ≡ part_of got (length room.now) }
    ensures within { AtMost (length room.now) result }
{
    match got {
        Ok(bytes) => Some(bytes.min(room.len())),
        Err(_) => None,
    }
}

// Reads once.
fn read_part(file: &mut impl Read, room: &mut [u8]) -> Option<usize>
    ensures { AtMost (length room.old) result }
{
    let got = file.read(room);
    part_of(got, room)
}

// Reads a file to its end, and answers how many bytes it has. There is nothing for a `for` to count: a turn goes on by what a read
// gives.
fn read_open(file: &mut impl Read, room: &mut [u8]) -> Result<usize, Unread>
    ensures { LeavesRoom room.new result }
{
    let mut done = 0;
    while done < room.len() {
        let Some(bytes) = read_part(file, &mut room[done..]) else {
            return Err(Unread::Failed(done));
        };
        if bytes == 0 {
            return Ok(done);
        }
        done += bytes;
    }
    Err(Unread::Full)
}

// Reads the file of a path.
fn read_path(rt: &impl Files, path: &[u8], room: &mut [u8]) -> Result<usize, Unread>
    ensures { LeavesRoom room.new result }
{
    match text_host::open_read(rt, path) {
        Ok(mut file) => read_open(&mut file, room),
        Err(_) => Err(Unread::Unopened),
    }
}

// Reads a file of a folder. A path of 4,096 bytes or more names no file.
pub fn read_file(
    rt: &impl Files,
    folder: &[u8],
    name: &[u8],
    room: &mut [u8],
) -> Result<usize, Unread>
    ensures { LeavesRoom room.new result }
{
    let mut path = io::buffer();
    let end = put_path(folder, name, &mut path);
    read_path(rt, text_fronts::front(&path, end), room)
}
