// Why a bay holds what it holds.
ghost use Rattle.std.specs.Prelude.{◌≡◌, true, length};
ghost use Rattle.bay_system.specs.System.{system_of};
ghost use Rattle.bay_legal_at.specs.OnGrid.{OnGrid};
ghost use Rattle.bay_lists.specs.Lists.{constraints_of, offsets_shaped};
ghost use Rattle.plan_reasons.specs.Reasons.{list_reason, reason_of};

use bay_legal_at::seed_at;
use bay_lists::Constraints;
use bay_system::System;

// A seed lies there; the list names nothing but 0; the list names other strands; or nothing but the bay's glue restricts it.
#[derive(Clone, Copy, Debug, PartialEq, Eq)]
pub enum BayReason {
    Seeded(u32),
    KeptEmpty,
    Restricted,
    Free,
}

// What the list of an unseeded bay makes of it.
fn list_reason(list: &[u32]) -> BayReason
    ensures { result ≡ list_reason list.now }
{
    if list.is_empty() {
        return BayReason::Free;
    }
    if plan_list_readers::only_zeros(list) {
        return BayReason::KeptEmpty;
    }
    BayReason::Restricted
}

// The reason of a bay: its seed, else its list.
pub fn bay_reason(system: &System<'_>, constraints: &Constraints<'_>, bay: usize) -> BayReason
    requires on_grid { OnGrid (system_of system.now) bay }
    requires shaped { offsets_shaped (length (system_of system.now).scaffold) (constraints_of constraints.now) ≡ true }
    ensures { result ≡ reason_of (system_of system.now) (constraints_of constraints.now) bay }
{
    match seed_at(system, bay) {
        Some(strand) => BayReason::Seeded(strand),
        None => list_reason(constraints.bay_list(system.scaffold.len(), bay)),
    }
}
