// The energies of each bay's strands.
ghost use Rattle.std.specs.Prelude.{◌≡◌, ◌*◌, ◌≤◌, ◌<◌, length, take};
ghost use Rattle.units.specs.Limits.{most_strands};
ghost use Rattle.bay_system.specs.System.{system_of};
ghost use Rattle.bay_bonds.specs.Readable.{Readable};
ghost use Rattle.run_tables.specs.Tables.{site_energy, site_table, ReadableBays};

use bay_scan_order::bay_at;
use bay_system::System;
use energy_bays::site_beta_energy;
use run_scan_tables::MOST_BAYS;
use units::MOST_STRANDS;

// The places of the table of all bays' energies, where there are as many bays and strands as may be.
pub const MOST_SITES: usize = MOST_BAYS * MOST_STRANDS;

// The energy of a bay with a number below the limit of strands, 0.0 where it is no strand.
fn site_energy(system: &System<'_>, bay: usize, t: usize) -> f64
    requires readable { Readable (system_of system.now) }
    requires readable_bays { ReadableBays (system_of system.now) }
    requires bay_in_bounds { let s = system_of system.now in bay < length s.scaffold }
    ensures { result ≡ site_energy (system_of system.now) bay t }
{
    if t < system.sizes.strands {
        site_beta_energy(system, bay, t)
    } else {
        0.0
    }
}

// Writes the energies of all bays in scan order to the front of a table, a row for each bay: number t is the row's place t.
pub fn fill_sites(system: &System<'_>, sites: &mut [f64])
    requires readable { Readable (system_of system.now) }
    requires readable_bays { ReadableBays (system_of system.now) }
    requires most_strands_in_bounds { let s = system_of system.now in
        s.sizes.rows * s.sizes.cols * most_strands ≤ length sites.old }
    ensures { let s = system_of system.now in
        take (s.sizes.rows * s.sizes.cols * most_strands) sites.new ≡ site_table s }
{
    let z = system.sizes;
    let end = z.rows * z.cols * MOST_STRANDS;
    for (i, energy) in sites[..end].iter_mut().enumerate() {
        let bay = bay_at(z.rows, z.cols, i / MOST_STRANDS);
        *energy = site_energy(system, bay, i % MOST_STRANDS);
    }
}
