// The bonds of all pairs of strands.
ghost use Rattle.std.specs.Prelude.{◌≡◌, ◌*◌, length};
ghost use Rattle.units.specs.Limits.{most_strands};
ghost use Rattle.bay_system.specs.System.{system_of};
ghost use Rattle.bay_bonds.specs.Readable.{Readable};
ghost use Rattle.run_tables.specs.Tables.{pair_energy, bond_table};

use bay_system::System;
use energy_bays::edge_beta_between;
use units::MOST_STRANDS;

// The bond of two numbers below the limit of strands, 0.0 where one is no strand.
fn pair_energy(system: &System<'_>, north_south: bool, s: usize, t: usize) -> f64
    requires { Readable (system_of system.now) }
    ensures { result ≡ pair_energy (system_of system.now) north_south s t }
{
    let strands = system.sizes.strands;
    if s < strands && t < strands {
        edge_beta_between(system, north_south, s, t)
    } else {
        0.0
    }
}

// Writes the bonds of all pairs, a row for each t: s is the row's place s. `north_south` is passed on as `energy_bays` takes it.
pub fn fill_bonds(system: &System<'_>, north_south: bool, table: &mut [f64])
    requires readable { Readable (system_of system.now) }
    requires table_len { length table.old ≡ most_strands * most_strands }
    ensures { table.new ≡ bond_table (system_of system.now) north_south }
{
    for (i, bond) in table.iter_mut().enumerate() {
        *bond = pair_energy(system, north_south, i % MOST_STRANDS, i / MOST_STRANDS);
    }
}
