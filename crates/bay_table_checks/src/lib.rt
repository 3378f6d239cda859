// What is refused of a system's tables: 2 and 3, with the first place.
#![tactic(auto)]

ghost use Rattle.std.specs.Prelude.{◌≡◌, ◌*◌, ◌≤◌, ◌<◌, not, ltb, length, position};
ghost use Rattle.units.specs.Limits.{most_strands, most_glues};
ghost use Rattle.units.specs.Finite.{finite};
ghost use Rattle.bay_table_checks.specs.Tables.{is_log, glues_verdict, energies_verdict};

use units::{Refusal, is_finite};

// The place of the first number that is not below `limit`.
pub fn first_not_below(numbers: &[u32], limit: usize) -> Option<usize>
    ensures { result ≡ position (λ n. not (ltb n limit)) numbers.now }
{
    numbers.iter().position(|&n| limit <= n as usize)
}

// Whether a log concentration is neither a NaN nor plus infinity.
fn is_log(x: f64) -> bool
    ensures { result ≡ is_log x }
{
    x < f64::INFINITY
}

// The place of the first energy that is not finite.
fn first_infinite(energies: &[f64]) -> Option<usize>
    ensures { result ≡ position (λ x. not (finite x)) energies.now }
{
    energies.iter().position(|&x| !is_finite(x))
}

// The place of the first number that is no log concentration.
fn first_no_log(logs: &[f64]) -> Option<usize>
    ensures { result ≡ position (λ x. not (is_log x)) logs.now }
{
    logs.iter().position(|&x| !is_log(x))
}

// Refusal 2: of the strands' glues first, then of the scaffold's.
pub fn check_glues(strand_glues: &[u32], scaffold: &[u32], glues: usize) -> Result<(), Refusal>
    requires { length strand_glues.now ≤ most_strands * 5 }
    ensures { result ≡ glues_verdict glues strand_glues.now scaffold.now }
{
    if let Some(place) = first_not_below(strand_glues, glues) {
        return Err(Refusal::Glue(place));
    }
    if let Some(place) = first_not_below(scaffold, glues) {
        return Err(Refusal::Glue(strand_glues.len() + place));
    }
    Ok(())
}

// Refusal 3: of ΔG, then of ΔS, then of the logarithms; strand 0's is not read.
pub fn check_energies(delta_g: &[f64], entropy: &[f64], logs: &[f64]) -> Result<(), Refusal>
    requires { (0 < length logs.now) × (length delta_g.now ≤ most_glues * most_glues) × (length entropy.now ≤ most_glues * most_glues) }
    ensures { result ≡ energies_verdict delta_g.now entropy.now logs.now }
{
    if let Some(place) = first_infinite(delta_g) {
        return Err(Refusal::Energy(place));
    }
    if let Some(place) = first_infinite(entropy) {
        return Err(Refusal::Energy(delta_g.len() + place));
    }
    if let Some(place) = first_no_log(&logs[1..]) {
        return Err(Refusal::Energy(delta_g.len() + entropy.len() + 1 + place));
    }
    Ok(())
}
