// The seed of a bay.
ghost use Rattle.std.specs.Prelude.{◌≡◌, ◌%◌, ◌≤◌, length};
ghost use Rattle.units.specs.Limits.{most_side};
ghost use Rattle.bay_system.specs.System.{system_of};
ghost use Rattle.bay_legal_at.specs.Legal.{seed_at, seed_of};

use bay_system::System;

// The strand of the last of some seeds that lies on a bay.
fn last_seed(cols: usize, seeds: &[u32], bay: usize) -> Option<u32>
    requires { (length seeds.now % 3 ≡ 0) × (cols ≤ most_side) }
    ensures { result ≡ seed_at cols seeds.now bay }
{
    let mut found = None;
    for i in 0..seeds.len() / 3 {
        let row = seeds[3 * i] as usize;
        let col = seeds[3 * i + 1] as usize;
        if row * cols + col == bay {
            found = Some(seeds[3 * i + 2]);
        }
    }
    found
}

// The strand of the last seed on a bay.
pub fn seed_at(system: &System<'_>, bay: usize) -> Option<u32>
    requires triples { length (system_of system.now).seeds % 3 ≡ 0 }
    requires few_cols { (system_of system.now).sizes.cols ≤ most_side }
    ensures { result ≡ seed_of (system_of system.now) bay }
{
    last_seed(system.sizes.cols, system.seeds, bay)
}
