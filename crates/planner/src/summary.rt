// One line for a folder.
use crate::line::Line;
use crate::messages::Told;
use crate::standard::{put_kcal, write_out};
use crate::task::{Found, Task};

// Writes the folder, the least energy, and how many bays are filled.
pub(crate) fn write_summary(task: &Task<'_>, found: &Found<'_>) -> Result<(), Told> {
    let filled = found.layout.iter().filter(|tile| **tile != 0).count();
    let mut room = [0u8; 8192];
    let mut line = Line::over(&mut room);
    line.put(task.folder);
    line.put(b": ");
    put_kcal(&mut line, task.wish.exact, found.energy);
    line.put_with(b", ", filled);
    line.put_with(b" of ", found.layout.len());
    line.put(b" bays filled\n");
    write_out(task.folder, line.text())
}
