// A folder: its six sheets are read, and then planned.
use crate::files::{check_folder, read_sheet, read_whole};
use crate::messages::Told;
use crate::tables::plan_sheets;
use crate::task::{Sheets, Task};

// Plans a folder. The register's sheet is taken as it is: that it is empty or no text, or that a byte order mark stands in front, is told as an
// error of a field. Where it cannot be planned, one sentence stands on standard error and nothing on standard output.
pub(crate) fn plan_folder(task: &Task<'_>) -> Result<(), Told> {
    check_folder(task)?;
    plan_there(task)
}

// Reads the sheets of a folder that is there. A function of its own: its rooms are zeroed as it is entered, and only then.
fn plan_there(task: &Task<'_>) -> Result<(), Told> {
    let mut strands = [0u8; 65536];
    let mut scaffold = [0u8; 65536];
    let mut keys = [0u8; 131072];
    let mut seeds = [0u8; 65536];
    let mut temperature = [0u8; 4096];
    let mut lists = [0u8; 262144];
    let sheets = Sheets {
        strands: read_sheet(task, b"strands.csv", &mut strands)?,
        scaffold: read_sheet(task, b"scaffold.csv", &mut scaffold)?,
        keys: read_sheet(task, b"energies.csv", &mut keys)?,
        seeds: read_sheet(task, b"seeds.csv", &mut seeds)?,
        temperature: read_sheet(task, b"temperature.csv", &mut temperature)?,
        lists: read_whole(task, b"constraints.csv", &mut lists)?,
    };
    plan_sheets(task, &sheets)
}
