// The drawing of a layout, in a file that is whole or is not there.
use crate::line::Line;
use crate::messages::{Told, say, say_file};
use crate::task::{Found, Tables, Task};
use crate::words::word_at;
use plan_layout_svg::put_svg;
use std::io::Write;

// Draws a layout into the file that the word at a place names.
pub(crate) fn draw(
    task: &Task<'_>,
    tables: &Tables<'_>,
    found: &Found<'_>,
    place: usize,
    page: &mut [u8],
) -> Result<(), Told> {
    let mut drawing = Line::over(page);
    drawing.end = put_svg(
        tables.system.sizes.rows,
        tables.system.sizes.cols,
        found.layout,
        &tables.names,
        found.marks,
        found.energy,
        drawing.room,
        0,
    );
    if drawing.is_full() {
        return Err(say(
            task.folder,
            b"the drawing takes more than 524287 bytes, the planner's room",
        ));
    }
    let mut room = io::buffer();
    write_file(task, word_at(task.rt, place, &mut room), drawing.text())
}

// Writes a file under another name first, so that under its own it is whole or what it was.
fn write_file(task: &Task<'_>, file: &[u8], text: &[u8]) -> Result<(), Told> {
    let mut room = [0u8; 4200];
    let mut name = Line::over(&mut room);
    name.put(file);
    name.put(b".partial");
    let partial = name.text();
    if !write_new(task.rt, partial, text) {
        return Err(say_file(
            task.folder,
            partial,
            b" cannot be made; where it is left from a run that was stopped, remove it",
        ));
    }
    if text_host::rename(task.rt, partial, file).is_err() {
        let _ = text_host::remove(task.rt, partial);
        return Err(say_file(task.folder, file, b" cannot be written"));
    }
    Ok(())
}

// Makes a file that is not there yet, and answers whether it could be written whole; where not, it is taken away.
fn write_new(rt: &HostRuntime, file: &[u8], text: &[u8]) -> bool {
    match text_host::create(rt, file) {
        Ok(mut made) => {
            let whole = made.write_all(text).is_ok();
            if !whole {
                let _ = text_host::remove(rt, file);
            }
            whole
        }
        Err(_) => false,
    }
}
