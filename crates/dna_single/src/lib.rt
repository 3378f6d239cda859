// One sequence with its perfect fit: what is refused of it, and the sum of its steps with the start term.
#![tactic(auto)]

ghost use Rattle.std.specs.Prelude.{◌≡◌, ◌-◌, length};
ghost use Rattle.dna_single.specs.Single.{steps_sum, single_energy, sequence_verdict, single_at_verdict};

use dna_letters::{DnaNucleotideBase, check_length, check_letters};
use dna_steps::{add_energy, dg_ds, no_energy, start};
use units::{BaseEnergy, Refusal, check_kelvin};

// The sum of all steps, from left to right.
fn single_sequence_dg_ds(dna: &[u8]) -> BaseEnergy
    ensures { result ≡ steps_sum dna.now (length dna.now - 1) }
{
    let mut sum = no_energy();
    for i in 1..dna.len() {
        let step = dg_ds(
            DnaNucleotideBase::from(dna[i - 1]),
            DnaNucleotideBase::from(dna[i]),
        );
        sum = add_energy(step, sum);
    }
    sum
}

// What is refused of one sequence, whose number 11 names: too many letters, a bad letter, under 2 letters.
pub fn check_single(dna: &[u8], sequence: usize) -> Result<(), Refusal>
    ensures { result ≡ sequence_verdict sequence dna.now }
{
    check_length(dna)?;
    check_letters(dna, sequence)?;
    if dna.len() < 2 {
        return Err(Refusal::TooFewLetters);
    }
    Ok(())
}

// What is refused of one sequence at a temperature, which is tested first.
pub fn check_single_at(dna: &[u8], kelvin: f64) -> Result<(), Refusal>
    ensures { result ≡ single_at_verdict dna.now kelvin }
{
    check_kelvin(kelvin)?;
    check_single(dna, 0)
}

// The energy of a sequence: its steps, then the start term. It is asked for after the tests: a byte that is no letter counts as C here.
pub fn single_energy(dna: &[u8]) -> BaseEnergy
    ensures { result ≡ single_energy dna.now }
{
    add_energy(single_sequence_dg_ds(dna), start())
}
