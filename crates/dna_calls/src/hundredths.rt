// The hundredths mode: ΔG of one sequence in whole hundredths of a kcal/mol.
ghost use Rattle.std.specs.Prelude.{◌≡◌};
ghost use Rattle.dna_calls.specs.Hundredths.{string_dna_hundredths};

use dna_hundredths::single_hundredths;
use dna_single::check_single;
use units::Refusal;

// ΔG of a sequence in whole hundredths.
pub fn string_dna_hundredths(dna: &[u8]) -> Result<i32, Refusal>
    ensures { result ≡ string_dna_hundredths dna.now }
{
    check_single(dna, 0)?;
    Ok(single_hundredths(dna))
}
