// The glue names of the strands and of the grid, which are registered.
ghost use Rattle.std.specs.Prelude.{◌≤◌};

use crate::messages::Told;
use crate::refusals::say_registering;
use crate::task::{Extent, Sheets};
use sheet_glues::register_sheets;

// What was registered: how many bases the names have, and how far their text goes.
#[derive(Clone, Copy)]
pub(crate) struct Glues {
    pub(crate) bases: usize,
    pub(crate) end: usize,
}

impl Glues {
    // How many glues there are: each base, its inverse, and none. More bases than 127 are taken for 127, which refusal 1 follows.
    pub(crate) fn count(&self) -> usize
        ensures { result ≤ 255 }
    {
        2 * self.bases.min(127) + 1
    }

    // How many pairs of glues there are.
    pub(crate) fn pairs(&self) -> usize
        ensures { result ≤ 65025 }
    {
        let count = self.count();
        count * count
    }
}

// Registers the names into tables that have room for the largest grid. These stay parameters: a part of a struct's lent field has no proof that is
// made for it.
pub(crate) fn register(
    folder: &[u8],
    sheets: &Sheets<'_>,
    extent: &Extent,
    text: &mut [u8],
    strand_glues: &mut [u32; 320],
    scaffold: &mut [u32; 1024],
    bases: &mut [usize],
) -> Result<Glues, Told> {
    let mut offsets = [0usize; 1400];
    let mut present = [0u8; 1400];
    let first_bay = extent.records * 5;
    let bays = extent.bays();
    let bases = register_sheets(
        sheets.strands,
        sheets.scaffold,
        extent.rows,
        extent.cols,
        extent.records + 1,
        text,
        &mut offsets,
        &mut present,
        &mut strand_glues[..first_bay + 5],
        &mut scaffold[..bays],
        bases,
    );
    match bases {
        Ok(bases) => Ok(Glues {
            bases,
            end: offsets[first_bay + bays],
        }),
        Err(refusal) => Err(say_registering(folder, refusal, extent)),
    }
}
