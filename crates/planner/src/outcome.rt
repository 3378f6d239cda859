// What is shown of a layout: a line, a sheet of numbers, or the whole with its reasons; and a drawing where one is asked for.
use crate::drawing::draw;
use crate::grid::{check_room, write_grid};
use crate::messages::Told;
use crate::numbers::write_numbers;
use crate::reasons::write_reasons;
use crate::refusals::say_tables;
use crate::standard::write_out;
use crate::summary::write_summary;
use crate::task::{Found, Ledger, Tables, Task};
use crate::why::write_why;
use crate::wish::Report;
use text_fronts::front;

// Shows a layout, as it is asked for: what can fail comes first, and the drawing before any output.
pub(crate) fn show(
    task: &Task<'_>,
    tables: &Tables<'_>,
    layout: &[u32],
    energy: f64,
    ledger: &mut Ledger<'_>,
    page: &mut [u8],
) -> Result<(), Told> {
    let mut marks = [0u8; 1024];
    if let Err(refusal) = tables.mark(&mut marks) {
        return Err(say_tables(task.folder, refusal));
    }
    let found = Found {
        layout,
        energy,
        marks: front(&marks, layout.len()),
    };
    if task.wish.report == Report::Whole {
        check_room(task, tables, &found, page)?;
    }
    if let Some(place) = task.wish.svg {
        draw(task, tables, &found, place, page)?;
    }
    match task.wish.report {
        Report::Summary => write_summary(task, &found),
        Report::Sheet => write_numbers(task.folder, &tables.system.sizes, layout, page),
        Report::Whole => show_whole(task, tables, &found, ledger, page),
    }
}

// Shows the grid of names with its energy, then the reason of each bay, then the bay that is asked about; of several folders
// each ends with an empty line.
fn show_whole(
    task: &Task<'_>,
    tables: &Tables<'_>,
    found: &Found<'_>,
    ledger: &mut Ledger<'_>,
    page: &mut [u8],
) -> Result<(), Told> {
    let mut sets = [0u64; 1024];
    if let Err(refusal) = tables.allow(&mut sets) {
        return Err(say_tables(task.folder, refusal));
    }
    write_grid(task, tables, found, page)?;
    write_reasons(task.folder, tables, found, front(&sets, found.layout.len()))?;
    if let Some(bay) = task.wish.why {
        write_why(task, tables, bay, ledger)?;
    }
    if task.wish.several {
        return write_out(task.folder, b"\n");
    }
    Ok(())
}
