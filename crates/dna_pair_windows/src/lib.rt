// The windows of two sequences written letter over letter: steps where both letters match, penalties where not, loops when they close.
#![tactic(auto)]

ghost use Rattle.std.specs.Prelude.{◌≡◌, ◌+◌, ◌-◌, ◌<◌, ◌≤◌, IfOk, length};
ghost use Rattle.units.specs.Limits.{most_letters};
ghost use Rattle.dna_loops.specs.Loops.{loop_penalty};
ghost use Rattle.dna_pair_windows.specs.Windows.{
  add_to_dg,
  closed_by,
  matched,
  both_match,
  penalty,
  after_window,
  window_at,
  pair_sum,
};

use dna_letters::{DnaNucleotideBase, good_match};
use dna_loops::loop_penalty;
use dna_mismatches::calculate_single_mismatch_penalty;
use dna_steps::{add_energy, dg_ds, no_energy};
use units::{BaseEnergy, Refusal};

// Two neighbouring letters of the first sequence over those of the second.
#[derive(Clone, Copy)]
struct Window {
    a1: DnaNucleotideBase,
    a2: DnaNucleotideBase,
    b1: DnaNucleotideBase,
    b2: DnaNucleotideBase,
}

// The windows gone through so far: their energy, and how many bad windows came last.
#[derive(Clone, Copy)]
pub struct PairSum {
    pub energy: BaseEnergy,
    pub bad: usize,
}

// The energy with a number added to its ΔG.
fn add_to_dg(energy: BaseEnergy, dg: f64) -> BaseEnergy
    ensures { result ≡ add_to_dg energy dg }
{
    BaseEnergy {
        dg: energy.dg + dg,
        ds: energy.ds,
    }
}

impl Window {
    // The window whose second letters are at this place.
    fn ending_at(a: &[u8], b: &[u8], i: usize) -> Window
        requires first { (0 < i) × (i < length a.now) }
        requires second { i < length b.now }
        ensures { result ≡ window_at a.now b.now (i - 1) }
    {
        Window {
            a1: DnaNucleotideBase::from(a[i - 1]),
            a2: DnaNucleotideBase::from(a[i]),
            b1: DnaNucleotideBase::from(b[i - 1]),
            b2: DnaNucleotideBase::from(b[i]),
        }
    }

    // Whether both letters bind.
    fn both_match(self) -> bool
        ensures { result ≡ both_match self }
    {
        good_match(self.a1, self.b1) && good_match(self.a2, self.b2)
    }

    // The penalty where they do not.
    fn penalty(self) -> f64
        ensures { result ≡ penalty self }
    {
        calculate_single_mismatch_penalty(self.a1, self.a2, self.b1, self.b2)
    }
}

impl PairSum {
    // The sum with a step that closes a loop of this length, and then with what the loop adds; refusal 14 where that has no value.
    fn closed_by(self, step: BaseEnergy, length: usize) -> Result<PairSum, Refusal>
        ensures { result ≡ closed_by self step length (loop_penalty length) }
    {
        let penalty = loop_penalty(length).ok_or(Refusal::LoopLength(length))?;
        Ok(PairSum {
            energy: add_to_dg(add_energy(self.energy, step), penalty),
            bad: 0,
        })
    }

    // The sum after a window that matches, which closes a loop of the bad windows before it where they are more than 2.
    fn matched(self, window: Window) -> Result<PairSum, Refusal>
        ensures { result ≡ matched self window }
    {
        let step = dg_ds(window.a1, window.a2);
        if 2 < self.bad {
            return self.closed_by(step, self.bad - 1);
        }
        Ok(PairSum {
            energy: add_energy(self.energy, step),
            bad: 0,
        })
    }

    // The sum after one window more.
    fn after_window(self, window: Window) -> Result<PairSum, Refusal>
        requires { self.bad < most_letters }
        ensures sum { result ≡ after_window self window }
        ensures one_more { IfOk result (λ sum. sum.bad ≤ self.bad + 1) }
    {
        if window.both_match() {
            return self.matched(window);
        }
        Ok(PairSum {
            energy: add_to_dg(self.energy, window.penalty()),
            bad: self.bad + 1,
        })
    }
}

// The sum of all windows; refusal 14 with the first closed loop's length that has no value.
pub fn pair_sum(a: &[u8], b: &[u8]) -> Result<PairSum, Refusal>
    requires a_len_bound { length a.now ≤ most_letters }
    requires a_len { length a.now ≡ length b.now }
    ensures { result ≡ pair_sum a.now b.now }
{
    let mut sum = PairSum {
        energy: no_energy(),
        bad: 0,
    };
    for i in 1..a.len() {
        sum = sum.after_window(Window::ending_at(a, b, i))?;
    }
    Ok(sum)
}
