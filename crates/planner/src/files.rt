// The six sheets of a folder, each read whole, and all but the register's tested to be text.
use crate::messages::{Told, begin_file, finish, finish_stray, say, say_file};
use crate::task::Task;
use sheet_files::{Unread, put_path, read_file};
use text_fronts::front;
use text_plain::{first_stray, without_mark};

// Tests that the folder can be opened, which a plain file cannot be as one.
pub(crate) fn check_folder(task: &Task<'_>) -> Result<(), Told> {
    let mut path = [0u8; 4200];
    let end = put_path(task.folder, b".", &mut path);
    if text_host::open_read(task.rt, front(&path, end)).is_err() {
        return Err(say(
            task.folder,
            b"there is no such folder, or it cannot be read",
        ));
    }
    Ok(())
}

// Says how far a file could be read, and why that is not enough.
fn say_read(folder: &[u8], name: &[u8], word: &[u8], bytes: usize, text: &[u8]) -> Told {
    let mut room = [0u8; 8192];
    let mut line = begin_file(&mut room, folder, name);
    line.put_with(word, bytes);
    finish(&mut line, text)
}

// Says that a file is no text.
fn say_no_text(folder: &[u8], name: &[u8], place: usize) -> Told {
    let mut room = [0u8; 8192];
    let mut line = begin_file(&mut room, folder, name);
    finish_stray(&mut line, place)
}

// Reads a file whole, which fits its room with a byte to spare.
pub(crate) fn read_whole<'a>(
    task: &Task<'_>,
    name: &[u8],
    room: &'a mut [u8],
) -> Result<&'a [u8], Told> {
    let most = room.len();
    match read_file(task.rt, task.folder, name, room) {
        Ok(bytes) => Ok(front(room, bytes)),
        Err(Unread::Unopened) => Err(say_file(
            task.folder,
            name,
            b" is missing or cannot be read; a folder has strands.csv, scaffold.csv, energies.csv, seeds.csv, temperature.csv and constraints.csv",
        )),
        Err(Unread::Full) => Err(say_read(
            task.folder,
            name,
            b" has ",
            most,
            b" bytes or more, which is larger than the planner's room for it; make it smaller, or use the library",
        )),
        Err(Unread::Failed(bytes)) => Err(say_read(
            task.folder,
            name,
            b" cannot be read to its end: a read failed after ",
            bytes,
            b" bytes, and a part is never taken for the whole; see that it is a plain file, and copy it anew",
        )),
    }
}

// Reads a sheet that has bytes and is text, without a byte order mark.
pub(crate) fn read_sheet<'a>(
    task: &Task<'_>,
    name: &[u8],
    room: &'a mut [u8],
) -> Result<&'a [u8], Told> {
    let text = read_whole(task, name, room)?;
    if text.is_empty() {
        return Err(say_file(
            task.folder,
            name,
            b" is empty; save it again (no seeds are the word none)",
        ));
    }
    let stray = first_stray(text);
    if stray < text.len() {
        return Err(say_no_text(task.folder, name, stray));
    }
    Ok(without_mark(text))
}
