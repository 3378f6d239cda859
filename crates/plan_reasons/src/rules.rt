// Which rule forbids a strand at a bay.
ghost use Rattle.std.specs.Prelude.{◌≡◌, true, length};
ghost use Rattle.bay_system.specs.System.{system_of};
ghost use Rattle.bay_legal_at.specs.OnGrid.{OnGrid};
ghost use Rattle.bay_lists.specs.Lists.{constraints_of, offsets_shaped};
ghost use Rattle.bay_binding.specs.Binding.{may_lie};
ghost use Rattle.plan_reasons.specs.Reasons.{list_rule, seed_rule, glue_rule, rule_of};

use bay_binding::binds;
use bay_glues::scaffold_glue_at;
use bay_legal_at::seed_at;
use bay_lists::Constraints;
use bay_system::System;
use plan_list_readers::list_allows;

// None; the bay's seed, which is another strand; no bond with the bay's glue; the bay's list, which leaves the strand out; no strand has
// this number.
#[derive(Clone, Copy, Debug, PartialEq, Eq)]
pub enum StrandRule {
    Legal,
    OtherSeed,
    NoBond,
    NotNamed,
    Unknown,
}

// What a bay's list says of a strand that nothing else forbids.
fn list_rule(allowed: bool) -> StrandRule
    ensures { result ≡ list_rule allowed }
{
    if allowed {
        return StrandRule::Legal;
    }
    StrandRule::NotNamed
}

// What an unseeded bay's glue says of a strand, then the bay's list.
fn glue_rule(system: &System<'_>, glue: u32, strand: u32, allowed: bool) -> StrandRule
    ensures { result ≡ glue_rule (may_lie (system_of system.now) glue strand) allowed }
{
    if strand == 0 {
        return list_rule(allowed);
    }
    if binds(system, glue, strand as usize) {
        return list_rule(allowed);
    }
    StrandRule::NoBond
}

// The rule for a strand at a bay: its number, then the bay's seed or else its glue, then the bay's list.
pub fn strand_rule(
    system: &System<'_>,
    constraints: &Constraints<'_>,
    bay: usize,
    strand: u32,
) -> StrandRule
    requires on_grid { OnGrid (system_of system.now) bay }
    requires shaped { offsets_shaped (length (system_of system.now).scaffold) (constraints_of constraints.now) ≡ true }
    ensures { result ≡ rule_of (system_of system.now) (constraints_of constraints.now) bay strand }
{
    if system.sizes.strands <= strand as usize {
        return StrandRule::Unknown;
    }
    let list = constraints.bay_list(system.scaffold.len(), bay);
    let allowed = list_allows(list, strand);
    match seed_at(system, bay) {
        Some(seed) => seed_rule(seed, strand, allowed),
        None => {
            let glue = scaffold_glue_at(system, bay);
            glue_rule(system, glue, strand, allowed)
        }
    }
}

// What a bay's seed says of a strand, then the bay's list.
fn seed_rule(seed: u32, strand: u32, allowed: bool) -> StrandRule
    ensures { result ≡ seed_rule seed strand allowed }
{
    if strand == seed {
        return list_rule(allowed);
    }
    StrandRule::OtherSeed
}
