// The least-energy run for callers in C or Rust, whose archive `run_export_c` is: sizes as plain numbers, slices as pointer and length, and the answer as a struct of numbers.
#![tactic(auto)]

ghost use Rattle.std.specs.Prelude.{◌≡◌, length};
ghost use Rattle.units.specs.Refusals.{number_in};
ghost use Rattle.bay_lists.specs.Lists.{constraints_of};
ghost use Rattle.run_mfe.specs.Run.{run_verdict, mfe_answer, layout_after, energies_after, notes_after};
ghost use Rattle.run_export.specs.Numbers.{numbers, sizes, system, constraints};

use bay_lists::Constraints;
use bay_system::{Sizes, System};
use run_mfe::mfe_configuration;
use units::Refusal;

// An answer in numbers, since C has no `Result`: the refusal's number, 0 where there is none, its first value, and the energy in kcal/mol, 0.0 where there is none.
#[repr(C)]
#[derive(Clone, Copy)]
pub struct RunNumbers {
    pub number: u32,
    pub first: usize,
    pub energy: f64,
}

// An answer as its numbers.
fn numbers(answer: Result<f64, Refusal>) -> RunNumbers
    ensures { result ≡ numbers answer }
{
    match answer {
        Ok(energy) => RunNumbers {
            number: 0,
            first: 0,
            energy,
        },
        Err(r) => RunNumbers {
            number: r.number(),
            first: r.first(),
            energy: 0.0,
        },
    }
}

// Constraints by a caller's number, one byte as C's bool is: 0 for absent ones, 1 for lists. Any other number is read as 1, as C reads a bool.
fn constraints<'a>(constrained: u8, offsets: &'a [usize], tiles: &'a [u32]) -> Constraints<'a>
    ensures { constraints_of result ≡ constraints constrained offsets.now tiles.now }
{
    if constrained == 0 {
        Constraints::Absent
    } else {
        Constraints::Lists { offsets, tiles }
    }
}

// The layout of least energy, its energy and its ledger, as `sdc2d_thermo::mfe_configuration` gives them. C has neither the structs nor their references,
// so that each size and slice is a parameter.
pub fn run_export_mfe_configuration(
    rows: usize,
    cols: usize,
    strands: usize,
    glues: usize,
    kelvin: f64,
    strand_glues: &[u32],
    scaffold: &[u32],
    delta_g: &[f64],
    entropy: &[f64],
    logs: &[f64],
    seeds: &[u32],
    constrained: u8,
    offsets: &[usize],
    tiles: &[u32],
    layout: &mut [u32],
    energies: &mut [f64],
    leaving: &mut [u8],
) -> RunNumbers
    ensures number { let s = system (sizes rows cols strands glues kelvin) strand_glues.now scaffold.now delta_g.now
        entropy.now logs.now seeds.now in
        let c = constraints constrained offsets.now tiles.now in
        result.number ≡ number_in (run_verdict s c (length layout.old) (length energies.old) (length leaving.old)) }
    ensures answer { let s = system (sizes rows cols strands glues kelvin) strand_glues.now scaffold.now delta_g.now
        entropy.now logs.now seeds.now in
        let c = constraints constrained offsets.now tiles.now in
        result ≡ numbers (mfe_answer s c (length layout.old) (length energies.old) (length leaving.old)) }
    ensures layout { let s = system (sizes rows cols strands glues kelvin) strand_glues.now scaffold.now delta_g.now
        entropy.now logs.now seeds.now in
        let c = constraints constrained offsets.now tiles.now in
        layout.new ≡ layout_after s c (length energies.old) (length leaving.old) layout.old }
    ensures energies { let s = system (sizes rows cols strands glues kelvin) strand_glues.now scaffold.now delta_g.now
        entropy.now logs.now seeds.now in
        let c = constraints constrained offsets.now tiles.now in
        energies.new ≡ energies_after s c (length layout.old) (length leaving.old) energies.old }
    ensures leaving { let s = system (sizes rows cols strands glues kelvin) strand_glues.now scaffold.now delta_g.now
        entropy.now logs.now seeds.now in
        let c = constraints constrained offsets.now tiles.now in
        leaving.new ≡ notes_after s c (length layout.old) (length energies.old) leaving.old }
{
    let system = System {
        sizes: Sizes {
            rows,
            cols,
            strands,
            glues,
            kelvin,
        },
        strand_glues,
        scaffold,
        delta_g,
        entropy,
        logs,
        seeds,
    };
    let constraints = constraints(constrained, offsets, tiles);
    numbers(mfe_configuration(&system, &constraints, layout, energies, leaving))
}
