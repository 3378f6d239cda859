// The set of one bay.
ghost use Rattle.std.specs.Prelude.{◌≡◌, true, length};
ghost use Rattle.sets.specs.Set.{word};
ghost use Rattle.bay_system.specs.System.{system_of};
ghost use Rattle.bay_bonds.specs.Readable.{Readable};
ghost use Rattle.bay_legal_at.specs.OnGrid.{OnGrid};
ghost use Rattle.bay_legal_at.specs.Legal.{is_permitted, set_at};
ghost use Rattle.bay_lists.specs.Lists.{constraints_of, offsets_shaped};

use crate::seeds::seed_at;
use bay_binding::friends_btm;
use bay_glues::scaffold_glue_at;
use bay_lists::Constraints;
use bay_system::System;

// The strands that a bay permits without constraints: its seed, else what may lie there.
pub fn base_allowed_tiles_at(system: &System<'_>, bay: usize) -> u64
    requires readable { Readable (system_of system.now) }
    requires on_grid { OnGrid (system_of system.now) bay }
    ensures { result ≡ word (is_permitted (system_of system.now) bay) 64 }
{
    match seed_at(system, bay) {
        Some(strand) => sets::only(strand),
        None => friends_btm(system, scaffold_glue_at(system, bay)),
    }
}

// The legal strands of a bay: what it permits, as far as its list keeps it.
pub fn constrained_allowed_tiles_at(
    system: &System<'_>,
    constraints: &Constraints<'_>,
    bay: usize,
) -> u64
    requires readable { Readable (system_of system.now) }
    requires on_grid { OnGrid (system_of system.now) bay }
    requires shaped { offsets_shaped (length (system_of system.now).scaffold) (constraints_of constraints.now) ≡ true }
    ensures { result ≡ set_at (system_of system.now) (constraints_of constraints.now) bay }
{
    let permitted = base_allowed_tiles_at(system, bay);
    constraints.restricted(permitted, system.scaffold.len(), bay)
}
