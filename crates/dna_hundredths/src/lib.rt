// ΔG of one sequence in whole hundredths of a kcal/mol.
#![tactic(auto)]

ghost use Rattle.std.specs.Prelude.{◌≡◌, ◌-◌, ◌<◌, ◌≤◌, pos, ◌-ℤ◌, length};
ghost use Rattle.units.specs.Limits.{most_letters};
ghost use Rattle.dna_hundredths.specs.Hundredths.{is_weak, end_term, steps_hundredths, single_hundredths};

use dna_letters::DnaNucleotideBase;
use dna_steps::step_hundredths;

// Whether a base is A or T.
fn is_weak(base: DnaNucleotideBase) -> bool
    ensures { result ≡ is_weak base }
{
    matches!(base, DnaNucleotideBase::A | DnaNucleotideBase::T)
}

// The end term: 5 when an end letter is A or T.
#[tactic(auto, unfolding(crate::specs::Hundredths::end_term))]
fn end_term(first: DnaNucleotideBase, last: DnaNucleotideBase) -> u32
    ensures { (result ≡ end_term first last) × (result ≤ 10) }
{
    if is_weak(first) || is_weak(last) {
        5
    } else {
        0
    }
}

// −ΔG of all steps in hundredths.
fn steps_hundredths(dna: &[u8]) -> u32
    requires { length dna.now ≤ most_letters }
    ensures { (result ≡ steps_hundredths dna.now (length dna.now - 1)) × (result ≤ 57344) }
{
    let mut sum: u32 = 0;
    for i in 1..dna.len() {
        sum += step_hundredths(
            DnaNucleotideBase::from(dna[i - 1]),
            DnaNucleotideBase::from(dna[i]),
        );
    }
    sum
}

// ΔG of a sequence of at least one letter and no more than the limit: the start and the end term less its steps.
pub fn single_hundredths(dna: &[u8]) -> i32
    requires { (0 < length dna.now) × (length dna.now ≤ most_letters) }
    ensures { result ≡ single_hundredths dna.now }
{
    let first = DnaNucleotideBase::from(dna[0]);
    let last = DnaNucleotideBase::from(dna[dna.len() - 1]);
    let added = 196 + end_term(first, last);
    added as i32 - steps_hundredths(dna) as i32
}
