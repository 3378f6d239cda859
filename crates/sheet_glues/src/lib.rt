// From a strands' sheet and a scaffold's sheet to glue numbers: the names of both are laid one after the other and registered.
//
// The tables stay parameters of their own: a struct of them would hold lent `&mut` slices, whose loans every contract would have to tell.
#![tactic(auto)]

ghost use Rattle.std.specs.Prelude.{◌+◌, ◌-◌, ◌*◌, ◌≤◌, ◌<◌, length, take, set};
ghost use Rattle.name_glues.specs.Names.{glue_names};
ghost use Rattle.sheet_names.specs.Appended.{Appended};
ghost use Rattle.sheet_names.specs.FrontFilled.{no_entries, FrontFilled};
ghost use Rattle.sheet_glues.specs.SheetGlues.{sheet_glues, bytes_laid, laid_names, Registers};

use name_registering::register;
use sheet_names::{Columns, Laid, put_columns};
use text_entries::Names;
use text_fronts::front;
use units::Refusal;

// Registers the glue names of two sheets: fields 3 to 7 of each strand's record, then the scaffold's fields row by row. A
// blank field is no glue.
pub fn register_sheets(
    strand_sheet: &[u8],
    scaffold_sheet: &[u8],
    rows: usize,
    cols: usize,
    strands: usize,
    text: &mut [u8],
    offsets: &mut [usize],
    present: &mut [u8],
    strand_glues: &mut [u32],
    scaffold: &mut [u32],
    bases: &mut [usize],
) -> Result<usize, Refusal>
    requires le_strands { 1 ≤ strands }
    requires cols_in_bounds { (strands - 1) * 5 + rows * cols < length offsets.old }
    requires cols_in_bounds_2 { (strands - 1) * 5 + rows * cols ≤ length present.old }
    ensures names { let glues = sheet_glues rows cols strands strand_sheet.now scaffold_sheet.now in
        FrontFilled text.old offsets.old present.old 0 glues
        (bytes_laid (length text.old) glues) text.new offsets.new present.new }
    ensures glues { let glues = sheet_glues rows cols strands strand_sheet.now scaffold_sheet.now in
        Registers rows cols strands (laid_names (length text.old) glues)
        result strand_glues.old scaffold.old bases.old
        strand_glues.new scaffold.new bases.new }
{
    let all = put_glues(
        strand_sheet,
        scaffold_sheet,
        rows,
        cols,
        strands,
        text,
        offsets,
        present,
    );
    register_fronts(
        rows,
        cols,
        strands,
        text,
        offsets,
        present,
        all,
        strand_glues,
        scaffold,
        bases,
    )
}

// Lays the names of the strands' own glues and then those of the grid's bays, from the start of the tables on.
fn put_glues(
    own: &[u8],
    grid: &[u8],
    rows: usize,
    cols: usize,
    strands: usize,
    text: &mut [u8],
    offsets: &mut [usize],
    present: &mut [u8],
) -> Laid
    requires le_strands { 1 ≤ strands }
    requires cols_in_bounds { (strands - 1) * 5 + rows * cols < length offsets.old }
    requires cols_in_bounds_2 { (strands - 1) * 5 + rows * cols ≤ length present.old }
    ensures { Appended text.old (set offsets.old 0 0) present.old (no_entries 0)
        (sheet_glues rows cols strands own.now grid.now)
        result text.new offsets.new present.new }
{
    offsets[0] = 0;
    let none = Laid {
        entries: 0,
        bytes: 0,
    };
    let glues = Columns {
        width: 7,
        from: 2,
        count: 5,
    };
    let bays = Columns {
        width: cols,
        from: 0,
        count: cols,
    };
    let first = put_columns(own, strands - 1, glues, text, offsets, present, none);
    put_columns(grid, rows, bays, text, offsets, present, first)
}

// Registers the names that stand at the fronts of the tables.
fn register_fronts(
    rows: usize,
    cols: usize,
    strands: usize,
    text: &[u8],
    offsets: &[usize],
    present: &[u8],
    all: Laid,
    strand_glues: &mut [u32],
    scaffold: &mut [u32],
    bases: &mut [usize],
) -> Result<usize, Refusal>
    requires { all.entries < length offsets.now }
    ensures { let text' = take all.bytes text.now in
        let offsets' = take (all.entries + 1) offsets.now in
        Registers rows cols strands (glue_names text' offsets' (take all.entries present.now))
        result strand_glues.old scaffold.old bases.old
        strand_glues.new scaffold.new bases.new }
{
    register(
        rows,
        cols,
        strands,
        &Names {
            text: front(text, all.bytes),
            offsets: front(offsets, all.entries + 1),
            present: front(present, all.entries),
        },
        strand_glues,
        scaffold,
        bases,
    )
}
