// The strands that may lie on an unseeded bay: strand 0, and each whose bottom glue binds the bay's.
#![tactic(auto)]

ghost use Rattle.std.specs.Prelude.{◌≡◌, ◌&&◌, ltb};
ghost use Rattle.units.specs.Limits.{most_strands};
ghost use Rattle.sets.specs.Set.{word};
ghost use Rattle.bay_system.specs.System.{system_of};
ghost use Rattle.bay_binding.specs.Binding.{is_bond, binds, may_lie};

use bay_glues::{BOTTOM_GLUE_INDEX, cell, strand_glues_of};
use bay_system::System;
use units::{BaseEnergy, MOST_STRANDS};

// Whether a cell has a ΔG or a ΔS different from zero.
fn is_bond(energy: BaseEnergy) -> bool
    ensures { result ≡ is_bond energy }
{
    energy.dg != 0.0 || energy.ds != 0.0
}

// Whether a strand's bottom glue binds a glue.
pub fn binds(system: &System<'_>, glue: u32, strand: usize) -> bool
    ensures { result ≡ binds (system_of system.now) glue strand }
{
    let own = strand_glues_of(system, strand);
    is_bond(cell(system, glue, own.glues[BOTTOM_GLUE_INDEX]))
}

// Whether a number is a strand's that may lie on an unseeded bay with this glue.
fn may_lie(system: &System<'_>, glue: u32, strand: usize) -> bool
    ensures { let s = system_of system.now in result ≡ ltb strand s.sizes.strands && may_lie s glue strand }
{
    strand < system.sizes.strands && (strand == 0 || binds(system, glue, strand))
}

// The strands that may lie on an unseeded bay with this glue.
pub fn friends_btm(system: &System<'_>, glue: u32) -> u64
    ensures { let s = system_of system.now in
        result ≡ word (λ t. ltb t s.sizes.strands && may_lie s glue t) most_strands }
{
    let mut set = sets::empty();
    for t in 0..MOST_STRANDS {
        set = sets::with_if(set, t as u32, may_lie(system, glue, t));
    }
    set
}
