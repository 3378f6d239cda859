// Bonds between glues: two strands side by side, and a strand on the scaffold, in units of R·T.
#![tactic(auto)]

ghost use Rattle.std.specs.Prelude.{◌≡◌};
ghost use Rattle.bay_system.specs.System.{system_of};
ghost use Rattle.bay_bonds.specs.Bonds.{glue_glue_dg, glue_bond, bond_we, bond_ns, bond_with_scaffold};

use bay_glues::{
    BOTTOM_GLUE_INDEX, EAST_GLUE_INDEX, NORTH_GLUE_INDEX, SOUTH_GLUE_INDEX, WEST_GLUE_INDEX, cell,
};
use bay_system::System;
use units::{StrandGlues, energy_at, times_beta};

// ΔG of two glues at the system's temperature, in kcal/mol.
pub fn glue_glue_dg(system: &System<'_>, a: u32, b: u32) -> f64
    ensures { result ≡ glue_glue_dg (system_of system.now) a b }
{
    energy_at(cell(system, a, b), system.sizes.kelvin)
}

// The bond of two glues.
fn bond(system: &System<'_>, a: u32, b: u32) -> f64
    ensures { result ≡ glue_bond (system_of system.now) a b }
{
    times_beta(glue_glue_dg(system, a, b), system.sizes.kelvin)
}

// The bond of two strands, `west` to the west of `east`.
pub fn bond_we(system: &System<'_>, west: StrandGlues, east: StrandGlues) -> f64
    ensures { result ≡ bond_we (system_of system.now) west east }
{
    let west_glue = west.glues[EAST_GLUE_INDEX];
    let east_glue = east.glues[WEST_GLUE_INDEX];
    bond(system, west_glue, east_glue)
}

// The bond of two strands, `north` to the north of `south`.
pub fn bond_ns(system: &System<'_>, north: StrandGlues, south: StrandGlues) -> f64
    ensures { result ≡ bond_ns (system_of system.now) north south }
{
    let north_glue = north.glues[SOUTH_GLUE_INDEX];
    let south_glue = south.glues[NORTH_GLUE_INDEX];
    bond(system, north_glue, south_glue)
}

// The bond of a strand to a bay's glue.
pub fn bond_with_scaffold(system: &System<'_>, glue: u32, strand: StrandGlues) -> f64
    ensures { result ≡ bond_with_scaffold (system_of system.now) glue strand }
{
    let strand_glue = strand.glues[BOTTOM_GLUE_INDEX];
    bond(system, glue, strand_glue)
}
