// The energies of two sequences written letter over letter.
#![tactic(auto)]

ghost use Rattle.std.specs.Prelude.{◌≡◌};
ghost use Rattle.dna_pairs.specs.Pair.{sequence_pair_dg_ds};

use dna_pair_checks::check_pair;
use dna_pair_windows::pair_sum;
use units::{BaseEnergy, Refusal};

// ΔG and ΔS of two sequences written letter over letter; no start term.
pub fn sequence_pair_str_dg_ds(a: &[u8], b: &[u8]) -> Result<BaseEnergy, Refusal>
    ensures { result ≡ sequence_pair_dg_ds a.now b.now }
{
    check_pair(a, b)?;
    let sum = pair_sum(a, b)?;
    Ok(sum.energy)
}
