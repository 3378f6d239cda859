// The register's lists, and the run.
use crate::bays::{Bay, from_one};
use crate::messages::{Told, begin, finish};
use crate::outcome::show;
use crate::refusals::say_lists;
use crate::task::{Ledger, Tables, Task};
use crate::unplanned::say_run;
use bay_lists::Constraints;
use bay_system::{Sizes, System};
use name_strands::StrandNames;
use sheet::read_sheet;
use text_fronts::front;
use units::Refusal;

// Lends an offset for each bay and one more.
fn read_lists(
    sizes: &Sizes,
    lists: &[u8],
    places: usize,
    offsets: &mut [usize],
    tiles: &mut [u32],
) -> Result<usize, Refusal> {
    if offsets.len() < places {
        return Err(Refusal::Size);
    }
    read_sheet(sizes.rows, sizes.cols, lists, &mut offsets[..places], tiles)
}

// Whether a bay lies on the grid.
fn is_on_grid(bay: Bay, sizes: &Sizes) -> bool {
    bay.row <= sizes.rows && bay.column <= sizes.cols
}

// Says that the bay that is asked about is none.
fn say_off_grid(folder: &[u8], sizes: &Sizes) -> Told {
    let mut room = [0u8; 8192];
    let mut line = begin(&mut room, folder);
    line.put_with(
        b"--why asks about a bay off the grid, which has rows 1 to ",
        sizes.rows,
    );
    line.put_with(b" and columns 1 to ", sizes.cols);
    finish(&mut line, b"")
}

// Reads the lists, and plans on.
pub(crate) fn plan_lists(
    task: &Task<'_>,
    lists: &[u8],
    system: &System<'_>,
    names: &StrandNames<'_>,
) -> Result<(), Told> {
    if let Some(bay) = task.wish.why {
        if !is_on_grid(bay, &system.sizes) {
            return Err(say_off_grid(task.folder, &system.sizes));
        }
    }
    let mut offsets = [0usize; 1025];
    let mut tiles = [0u32; 65536];
    let places = from_one(system.scaffold.len());
    let count = match read_lists(&system.sizes, lists, places, &mut offsets, &mut tiles) {
        Ok(count) => count,
        Err(refusal) => {
            return Err(say_lists(task.folder, refusal, &system.sizes, lists));
        }
    };
    plan_tables(
        task,
        &tables_of(
            *system,
            *names,
            front(&offsets, places),
            front(&tiles, count),
        ),
    )
}

// The tables of a system, with lists of its bays.
fn tables_of<'a>(
    system: System<'a>,
    names: StrandNames<'a>,
    offsets: &'a [usize],
    tiles: &'a [u32],
) -> Tables<'a> {
    let constraints = Constraints::Lists { offsets, tiles };
    Tables {
        system,
        constraints,
        names,
    }
}

// Makes the ledger of the run and the page of the report, and plans on.
fn plan_tables(task: &Task<'_>, tables: &Tables<'_>) -> Result<(), Told> {
    let mut energies = [0.0f64; 400000];
    let mut notes = [0u8; 400000];
    let mut page = [0u8; 524288];
    plan_run(task, tables, &mut energies, &mut notes, &mut page)
}

// Finds the layout of least energy, and shows it.
fn plan_run(
    task: &Task<'_>,
    tables: &Tables<'_>,
    energies: &mut [f64; 400000],
    notes: &mut [u8; 400000],
    page: &mut [u8; 524288],
) -> Result<(), Told> {
    let mut ledger = Ledger { energies, notes };
    let mut layout = [0u32; 1024];
    match tables.run(&mut layout, &mut ledger) {
        Err(refusal) => Err(say_run(task.folder, refusal, tables)),
        Ok(energy) => show(
            task,
            tables,
            front(&layout, tables.system.scaffold.len()),
            energy,
            &mut ledger,
            page,
        ),
    }
}
