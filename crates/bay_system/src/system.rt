// What is refused of a system: 1, then 2 and 3 of its tables and 4 of its seeds, with the first place.
ghost use Rattle.std.specs.Prelude.{◌≡◌, true, ◌%◌, length};
ghost use Rattle.bay_system.specs.System.{system_of, sizes_fit, seed_fits, lengths_fit, sizes_verdict, seeds_verdict, system_verdict};

use crate::sizes::{Sizes, sizes_fit};
use bay_table_checks::{check_energies, check_glues};
use units::Refusal;

// What every call on a system is lent.
#[derive(Clone, Copy)]
pub struct System<'a> {
    pub sizes: Sizes,
    // Five glues a strand.
    pub strand_glues: &'a [u32],
    // One glue a bay, row by row.
    pub scaffold: &'a [u32],
    // Two square matrices over the glues.
    pub delta_g: &'a [f64],
    pub entropy: &'a [f64],
    // One logarithm a strand.
    pub logs: &'a [f64],
    // Row, column and strand of each seed.
    pub seeds: &'a [u32],
}

// Whether a seed lies on the grid and its strand is below the count.
fn seed_fits(z: Sizes, row: u32, col: u32, strand: u32) -> bool
    ensures { result ≡ seed_fits z row col strand }
{
    (row as usize) < z.rows && (col as usize) < z.cols && (strand as usize) < z.strands
}

// Refusal 4 with the first seed that is off the grid or has no such strand.
fn check_seeds(z: Sizes, seeds: &[u32]) -> Result<(), Refusal>
    requires { length seeds.now % 3 ≡ 0 }
    ensures { result ≡ seeds_verdict z seeds.now }
{
    for i in 0..seeds.len() / 3 {
        if !seed_fits(z, seeds[3 * i], seeds[3 * i + 1], seeds[3 * i + 2]) {
            return Err(Refusal::Seed(i));
        }
    }
    Ok(())
}

// Whether the slices are as long as sizes in range ask.
fn lengths_fit(system: &System<'_>) -> bool
    requires { sizes_fit system.now.sizes ≡ true }
    ensures { result ≡ lengths_fit (system_of system.now) }
{
    let z = system.sizes;
    let cells = z.glues * z.glues;
    system.strand_glues.len() == z.strands * 5
        && system.scaffold.len() == z.rows * z.cols
        && system.delta_g.len() == cells
        && system.entropy.len() == cells
        && system.logs.len() == z.strands
        && system.seeds.len() % 3 == 0
}

// Refusal 1: a size or the temperature is out of range, or a slice has the wrong length.
fn check_sizes(system: &System<'_>) -> Result<(), Refusal>
    ensures { result ≡ sizes_verdict (system_of system.now) }
{
    if sizes_fit(system.sizes) && lengths_fit(system) {
        Ok(())
    } else {
        Err(Refusal::Size)
    }
}

// What is refused of a system before anything else is asked: none, or the first of 1 to 4 with its place.
pub fn check_system(system: &System<'_>) -> Result<(), Refusal>
    ensures { result ≡ system_verdict (system_of system.now) }
{
    check_sizes(system)?;
    check_glues(system.strand_glues, system.scaffold, system.sizes.glues)?;
    check_energies(system.delta_g, system.entropy, system.logs)?;
    check_seeds(system.sizes, system.seeds)
}
