// What is to be done, and what it is done from.
ghost use Rattle.std.specs.Prelude.{◌≡◌, ◌*◌, ◌≤◌};

use crate::wish::Wish;
use bay_lists::Constraints;
use bay_system::System;
use name_strands::StrandNames;

// A folder that is planned, and what is asked of it.
#[derive(Clone, Copy)]
pub(crate) struct Task<'a> {
    pub(crate) rt: &'a HostRuntime,
    pub(crate) folder: &'a [u8],
    pub(crate) wish: Wish,
}

// The texts of a folder's sheets.
#[derive(Clone, Copy)]
pub(crate) struct Sheets<'a> {
    pub(crate) strands: &'a [u8],
    pub(crate) scaffold: &'a [u8],
    pub(crate) keys: &'a [u8],
    pub(crate) seeds: &'a [u8],
    pub(crate) temperature: &'a [u8],
    pub(crate) lists: &'a [u8],
}

// How many strands the sheets have, the empty one not among them, and how large their grid is.
#[derive(Clone, Copy)]
pub(crate) struct Extent {
    pub(crate) records: usize,
    pub(crate) rows: usize,
    pub(crate) cols: usize,
    ghost few_strands: { records ≤ 63 },
    ghost few_rows: { rows ≤ 32 },
    ghost few_cols: { cols ≤ 32 },
}

impl Extent {
    // How many bays the grid has.
    pub(crate) fn bays(&self) -> usize
        ensures value { result ≡ self.now.rows * self.now.cols }
        ensures few { result ≤ 1024 }
    {
        self.rows * self.cols
    }
}

// What a folder's sheets say: the system, the lists of its bays, and the names of its strands.
#[derive(Clone, Copy)]
pub(crate) struct Tables<'a> {
    pub(crate) system: System<'a>,
    pub(crate) constraints: Constraints<'a>,
    pub(crate) names: StrandNames<'a>,
}

// A layout with its energy, and the mark of each of its bays.
#[derive(Clone, Copy)]
pub(crate) struct Found<'a> {
    pub(crate) layout: &'a [u32],
    pub(crate) energy: f64,
    pub(crate) marks: &'a [u8],
}

// Where a run keeps its rows.
#[derive(Drop)]
pub(crate) struct Ledger<'a> {
    pub(crate) energies: &'a mut [f64],
    pub(crate) notes: &'a mut [u8],
}
