// What is refused of two sequences written letter over letter before their windows are gone through.
#![tactic(auto)]

ghost use Rattle.std.specs.Prelude.{◌≡◌};
ghost use Rattle.dna_pair_checks.specs.Tests.{pair_tests};

use dna_letters::{check_length, check_letters};
use units::Refusal;

// What is refused of two sequences before their windows are gone through: lengths, letters, and unequal lengths.
pub fn check_pair(a: &[u8], b: &[u8]) -> Result<(), Refusal>
    ensures { result ≡ pair_tests a.now b.now }
{
    check_length(a)?;
    check_length(b)?;
    check_letters(a, 0)?;
    check_letters(b, 1)?;
    if a.len() != b.len() {
        return Err(Refusal::SequenceLength);
    }
    Ok(())
}
