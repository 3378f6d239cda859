// The sheets have the right shape, and the tables of the system are read from them.
use crate::glues::register;
use crate::keys::fill_matrices;
use crate::lists::plan_lists;
use crate::messages::{Told, say};
use crate::seeds::read_seeds;
use crate::shapes::{Form, records_of};
use crate::strands::{read_logs, read_names};
use crate::task::{Extent, Sheets, Task};
use crate::temperature::read_temperature;
use bay_system::{Sizes, System};
use name_strands::{NUMERALS, StrandNames};
use sheet_records::first_width;
use text_entries::Names;
use text_fronts::front;

// How many strands there are, and how large the grid is.
fn extent_of(folder: &[u8], sheets: &Sheets<'_>) -> Result<Extent, Told> {
    let records = records_of(
        folder,
        sheets.strands,
        7,
        63,
        &Form {
            sheet: b"strands.csv",
            refusal: b"refusal 1: ",
            many: b"there are more than 63 strands; with the empty one a system has at most 64",
            record: b"a strand has 7 fields: its name, the logarithm of its concentration, and its glues north, east, south, west and bottom; quotes stand around a whole field",
        },
    )?;
    let cols = first_width(sheets.scaffold);
    if 32 < cols {
        return Err(say(
            folder,
            b"refusal 1: scaffold.csv has more than 32 columns; a grid has at most 32",
        ));
    }
    let rows = records_of(
        folder,
        sheets.scaffold,
        cols,
        32,
        &Form {
            sheet: b"scaffold.csv",
            refusal: b"refusal 1: ",
            many: b"there are more than 32 rows; a grid has at most 32",
            record: b"every row of the grid has a field for each column, and quotes stand around a whole field",
        },
    )?;
    Ok(Extent {
        records,
        rows,
        cols,
    })
}

// Plans a folder's sheets.
pub(crate) fn plan_sheets(task: &Task<'_>, sheets: &Sheets<'_>) -> Result<(), Told> {
    let extent = extent_of(task.folder, sheets)?;
    plan_extent(task, sheets, &extent)
}

// Names of strands by their entries.
fn strand_names<'a>(text: &'a [u8], offsets: &'a [usize], present: &'a [u8]) -> StrandNames<'a> {
    let names = Names {
        text,
        offsets,
        present,
    };
    StrandNames {
        names,
        numerals: &NUMERALS,
    }
}

// Reads the tables of a system of known extent, and plans on. The tables stand before the first `?`: one that stood behind it would be zeroed twice.
fn plan_extent(task: &Task<'_>, sheets: &Sheets<'_>, extent: &Extent) -> Result<(), Told> {
    let mut text = [0u8; 16385];
    let mut strand_glues = [0u32; 320];
    let mut scaffold = [0u32; 1024];
    let mut bases = [0usize; 254];
    let mut delta_g = [0.0f64; 65025];
    let mut entropy = [0.0f64; 65025];
    let mut name_text = [0u8; 16385];
    let mut name_offsets = [0usize; 65];
    let mut present = [0u8; 64];
    let mut logs = [0.0f64; 64];
    let mut seeds = [0u32; 3072];
    let glues = register(
        task.folder,
        sheets,
        extent,
        &mut text,
        &mut strand_glues,
        &mut scaffold,
        &mut bases,
    )?;
    fill_matrices(
        task.folder,
        sheets.keys,
        &glues,
        &bases,
        &mut text,
        &mut delta_g,
        &mut entropy,
    )?;
    let strands = extent.records + 1;
    let end = read_names(
        task.folder,
        sheets.strands,
        extent.records,
        &mut name_text,
        &mut name_offsets,
        &mut present,
    )?;
    let names = strand_names(
        front(&name_text, end),
        front(&name_offsets, strands + 1),
        front(&present, strands),
    );
    read_logs(task.folder, sheets.strands, extent.records, &mut logs)?;
    let seed_numbers = read_seeds(task.folder, sheets.seeds, extent, &names, &mut seeds)?;
    let kelvin = read_temperature(task.folder, sheets.temperature)?;
    let system = System {
        sizes: Sizes {
            rows: extent.rows,
            cols: extent.cols,
            strands,
            glues: glues.count(),
            kelvin,
        },
        strand_glues: front(&strand_glues, strands * 5),
        scaffold: front(&scaffold, extent.bays()),
        delta_g: front(&delta_g, glues.pairs()),
        entropy: front(&entropy, glues.pairs()),
        logs: front(&logs, strands),
        seeds: front(&seeds, seed_numbers),
    };
    plan_lists(task, sheets.lists, &system, &names)
}
