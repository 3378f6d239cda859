// The least-energy run for callers in C or Rust that link the archive: the exported call, which is the library's.
#![tactic(auto)]

ghost use Rattle.std.specs.Prelude.{◌≡◌, length};
ghost use Rattle.units.specs.Refusals.{number_in};
ghost use Rattle.run_mfe.specs.Run.{run_verdict, mfe_answer, layout_after, energies_after, notes_after};
ghost use Rattle.run_export.specs.Numbers.{numbers, sizes, system, constraints};

use run_export::RunNumbers;

// The layout of least energy, its energy and its ledger, as `run_export::run_export_mfe_configuration` gives them.
#[unsafe(no_mangle)]
pub extern "C" fn run_export_mfe_configuration(
    rows: usize,
    cols: usize,
    strands: usize,
    glues: usize,
    kelvin: f64,
    strand_glues: &[u32],
    scaffold: &[u32],
    delta_g: &[f64],
    entropy: &[f64],
    logs: &[f64],
    seeds: &[u32],
    constrained: u8,
    offsets: &[usize],
    tiles: &[u32],
    layout: &mut [u32],
    energies: &mut [f64],
    leaving: &mut [u8],
) -> RunNumbers
    ensures number { let s = system (sizes rows cols strands glues kelvin) strand_glues.now scaffold.now delta_g.now
        entropy.now logs.now seeds.now in
        let c = constraints constrained offsets.now tiles.now in
        result.number ≡ number_in (run_verdict s c (length layout.old) (length energies.old) (length leaving.old)) }
    ensures answer { let s = system (sizes rows cols strands glues kelvin) strand_glues.now scaffold.now delta_g.now
        entropy.now logs.now seeds.now in
        let c = constraints constrained offsets.now tiles.now in
        result ≡ numbers (mfe_answer s c (length layout.old) (length energies.old) (length leaving.old)) }
    ensures layout { let s = system (sizes rows cols strands glues kelvin) strand_glues.now scaffold.now delta_g.now
        entropy.now logs.now seeds.now in
        let c = constraints constrained offsets.now tiles.now in
        layout.new ≡ layout_after s c (length energies.old) (length leaving.old) layout.old }
    ensures energies { let s = system (sizes rows cols strands glues kelvin) strand_glues.now scaffold.now delta_g.now
        entropy.now logs.now seeds.now in
        let c = constraints constrained offsets.now tiles.now in
        energies.new ≡ energies_after s c (length layout.old) (length leaving.old) energies.old }
    ensures leaving { let s = system (sizes rows cols strands glues kelvin) strand_glues.now scaffold.now delta_g.now
        entropy.now logs.now seeds.now in
        let c = constraints constrained offsets.now tiles.now in
        leaving.new ≡ notes_after s c (length layout.old) (length energies.old) leaving.old }
{
    run_export::run_export_mfe_configuration(
        rows,
        cols,
        strands,
        glues,
        kelvin,
        strand_glues,
        scaffold,
        delta_g,
        entropy,
        logs,
        seeds,
        constrained,
        offsets,
        tiles,
        layout,
        energies,
        leaving,
    )
}
