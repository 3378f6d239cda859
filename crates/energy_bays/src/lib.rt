// The energies of bays and of pairs of neighbours, in units of R·T.
#![tactic(auto)]

ghost use Rattle.std.specs.Prelude.{◌≡◌};
ghost use Rattle.bay_system.specs.System.{system_of};
ghost use Rattle.energy_bays.specs.Energies.{bay_energy, edge_energy, is_bad};

use bay_bonds::{bond_ns, bond_we, bond_with_scaffold};
use bay_glues::{log_of, scaffold_glue_at, strand_glues_of};
use bay_system::System;

// The energy of a bay with a strand: 0.0 with strand 0, else the scaffold bond minus the strand's log concentration.
pub fn site_beta_energy(system: &System<'_>, bay: usize, strand: usize) -> f64
    ensures { result ≡ bay_energy (system_of system.now) bay strand }
{
    if strand == 0 {
        return 0.0;
    }
    let own = strand_glues_of(system, strand);
    let bond = bond_with_scaffold(system, scaffold_glue_at(system, bay), own);
    bond - log_of(system, strand)
}

// The energy of two neighbours, `first` north of `second` or west of it: 0.0 where one is empty, else their bond.
pub fn edge_beta_between(system: &System<'_>, north_south: bool, first: usize, second: usize) -> f64
    ensures { result ≡ edge_energy (system_of system.now) north_south first second }
{
    if first == 0 || second == 0 {
        return 0.0;
    }
    let a = strand_glues_of(system, first);
    let b = strand_glues_of(system, second);
    if north_south {
        bond_ns(system, a, b)
    } else {
        bond_we(system, a, b)
    }
}

// Whether a sum is no energy: a NaN or minus infinity.
pub fn is_bad(x: f64) -> bool
    ensures { result ≡ is_bad x }
{
    floats::is_bad(x)
}
