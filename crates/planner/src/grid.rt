// The grid of names, with its energy.
use crate::line::Line;
use crate::messages::{Told, say};
use crate::standard::{put_kcal, write_out};
use crate::task::{Found, Tables, Task};
use plan_layout_text::put_layout;

// Puts the folder, the least energy and the grid of tile names.
fn put_grid(line: &mut Line<'_>, task: &Task<'_>, tables: &Tables<'_>, found: &Found<'_>) {
    line.put(task.folder);
    line.put(b": ");
    put_kcal(line, task.wish.exact, found.energy);
    line.put(b"\n\n");
    line.end = put_layout(
        tables.system.sizes.rows,
        tables.system.sizes.cols,
        found.layout,
        &tables.names,
        line.room,
        line.end,
    );
    line.put(b"\n");
}

// Tests that the grid of names has room.
pub(crate) fn check_room(
    task: &Task<'_>,
    tables: &Tables<'_>,
    found: &Found<'_>,
    page: &mut [u8],
) -> Result<(), Told> {
    let mut line = Line::over(page);
    put_grid(&mut line, task, tables, found);
    if line.is_full() {
        return Err(say(
            task.folder,
            b"the grid of names takes more than 524287 bytes, the planner's room; shorten the longest name, or ask for --sheet",
        ));
    }
    Ok(())
}

// Writes the folder, the least energy and the grid of tile names.
pub(crate) fn write_grid(
    task: &Task<'_>,
    tables: &Tables<'_>,
    found: &Found<'_>,
    page: &mut [u8],
) -> Result<(), Told> {
    let mut line = Line::over(page);
    put_grid(&mut line, task, tables, found);
    write_out(task.folder, line.text())
}
