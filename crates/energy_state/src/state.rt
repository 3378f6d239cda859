// The energy of a layout in kcal/mol, and what is refused of it.
ghost use Rattle.std.specs.Prelude.{◌≡◌, ◌≤◌};
ghost use Rattle.units.specs.Limits.{most_side};
ghost use Rattle.units.specs.Refusals.{◌▷◌, answer};
ghost use Rattle.bay_system.specs.System.{system_of};
ghost use Rattle.energy_state.specs.StateG.{shape_verdict, strands_verdict, layout_verdict, energy_verdict, in_kcal, state_g};

use bay_system::{Sizes, System, check_system};
use bay_table_checks::first_not_below;
use energy_bays::is_bad;
use energy_listing_sum::state_beta_energy;
use units::{Refusal, rtval};

// Refusal 5 where a layout has the wrong length, else 6 where it names a strand that is not there.
fn check_layout(z: Sizes, layout: &[u32]) -> Result<(), Refusal>
    requires { (z.rows ≤ most_side) × (z.cols ≤ most_side) }
    ensures { result ≡ shape_verdict z layout.now ▷ strands_verdict z layout.now }
{
    if layout.len() != z.rows * z.cols {
        return Err(Refusal::Shape);
    }
    match first_not_below(layout, z.strands) {
        Some(bay) => Err(Refusal::Strand(bay)),
        None => Ok(()),
    }
}

// What is refused before anything is added: 1 to 4, then 5 and 6.
fn check_state(system: &System<'_>, layout: &[u32]) -> Result<(), Refusal>
    ensures { result ≡ layout_verdict (system_of system.now) layout.now }
{
    check_system(system)?;
    check_layout(system.sizes, layout)
}

// A sum in units of R·T as an answer in kcal/mol; 10 where it is a NaN or minus infinity.
pub fn answered(sum: f64, kelvin: f64) -> Result<f64, Refusal>
    ensures { result ≡ answer (energy_verdict sum) (in_kcal sum kelvin) }
{
    if is_bad(sum) {
        return Err(Refusal::BadSum);
    }
    Ok(sum * rtval(kelvin))
}

// The energy of a layout in kcal/mol, legal or not.
pub fn state_g(system: &System<'_>, layout: &[u32]) -> Result<f64, Refusal>
    ensures { result ≡ state_g (system_of system.now) layout.now }
{
    check_state(system, layout)?;
    answered(state_beta_energy(system, layout), system.sizes.kelvin)
}
