// One sequence with its perfect fit.
ghost use Rattle.std.specs.Prelude.{◌≡◌};
ghost use Rattle.dna_calls.specs.Single.{string_dna_dg_ds, string_dna_delta_g};

use dna_single::{check_single, check_single_at, single_energy};
use units::{BaseEnergy, Refusal, energy_at};

// ΔG and ΔS of a sequence with its reverse complement.
pub fn string_dna_dg_ds(dna: &[u8]) -> Result<BaseEnergy, Refusal>
    ensures { result ≡ string_dna_dg_ds dna.now }
{
    check_single(dna, 0)?;
    Ok(single_energy(dna))
}

// ΔG of a sequence with its reverse complement at a temperature in kelvin.
pub fn string_dna_delta_g(dna: &[u8], kelvin: f64) -> Result<f64, Refusal>
    ensures { result ≡ string_dna_delta_g dna.now kelvin }
{
    check_single_at(dna, kelvin)?;
    Ok(energy_at(single_energy(dna), kelvin))
}
