// The test for a bad energy, and the running choice of a least one. Their laws are in proofs/.
#![tactic(auto)]

ghost use Rattle.std.specs.Prelude.{◌≡◌, true, not};
ghost use Rattle.std.specs.Float.{inf};
ghost use Rattle.std.specs.Float.Ieee.{lt};
ghost use Rattle.floats.specs.Least.{better};

// Whether x is no energy: a NaN or minus infinity.
pub fn is_bad(x: f64) -> bool
    ensures { result ≡ not (lt (inf true) x) }
{
    !(f64::NEG_INFINITY < x)
}

// A running choice: the least energy so far, and whose it is (a place, a strand).
#[derive(Clone, Copy)]
pub struct Choice {
    pub energy: f64,
    pub who: usize,
}

// The new one where its energy is smaller, else the old one.
pub fn better_choice(old: Choice, new: Choice) -> Choice
    ensures { result ≡ better (λ c. c.energy) old new }
{
    if new.energy < old.energy { new } else { old }
}
