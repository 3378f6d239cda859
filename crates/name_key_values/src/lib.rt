// What a key gives, two floats or a sequence: the energy that it comes to, and what is refused of it.
#![tactic(auto)]

ghost use Rattle.std.specs.Prelude.{◌≡◌, ◌+◌, ◌<◌, length};
ghost use Rattle.name_key_values.specs.Values.{values_of, value_at, gs_or_seq_to_gs, key_energy};
ghost use Rattle.name_key_values.specs.Refusals.{value_verdict, key_verdict, values_verdict};

use dna_single::{check_single, single_energy};
use text_entries::{Entries, part_of};
use units::{BaseEnergy, Refusal, is_finite};

// ΔG and ΔS, or the offsets of a sequence in the sequences' text.
#[derive(Clone, Copy)]
pub enum GsOrSeq {
    GS(f64, f64),
    Seq(usize, usize),
}

// The keys' values as they are lent: a kind for each key, and for each two numbers and a sequence, of which the kind says what counts.
#[derive(Clone, Copy)]
pub struct KeyValues<'a> {
    pub kinds: &'a [u8],
    pub numbers: &'a [f64],
    pub sequences: Entries<'a>,
}

impl KeyValues<'_> {
    // What key k gives.
    fn value(&self, k: usize) -> GsOrSeq
        requires k_in_bounds { k < length self.now.kinds.now }
        requires numbers_len { length self.now.numbers.now ≡ length self.now.kinds.now + length self.now.kinds.now }
        requires sequence_offsets_len { length self.now.sequences.offsets.now ≡ length self.now.kinds.now + 1 }
        ensures { result ≡ value_at self.now.kinds.now self.now.numbers.now self.now.sequences.offsets.now k }
    {
        if self.kinds[k] == 1 {
            GsOrSeq::Seq(self.sequences.offsets[k], self.sequences.offsets[k + 1])
        } else {
            GsOrSeq::GS(self.numbers[k + k], self.numbers[k + k + 1])
        }
    }

    // The energy of key k.
    pub fn energy(&self, k: usize) -> BaseEnergy
        requires k_in_bounds { k < length self.now.kinds.now }
        requires numbers_len { length self.now.numbers.now ≡ length self.now.kinds.now + length self.now.kinds.now }
        requires sequence_offsets_len { length self.now.sequences.offsets.now ≡ length self.now.kinds.now + 1 }
        ensures { result ≡ key_energy (values_of self.now) k }
    {
        gsorseq_to_gs(self.value(k), self.sequences.text)
    }

    // What is refused of the values of all keys, in list order.
    #[tactic(auto, using(text_entries::proofs::InOrder::each_more, text_entries::proofs::InOrder::each_refused, text_entries::proofs::InOrder::each_done))]
    pub fn check(&self) -> Result<(), Refusal>
        requires numbers_len { length self.now.numbers.now ≡ length self.now.kinds.now + length self.now.kinds.now }
        requires sequence_offsets_len { length self.now.sequences.offsets.now ≡ length self.now.kinds.now + 1 }
        ensures { result ≡ values_verdict (values_of self.now) }
    {
        for k in 0..self.kinds.len() {
            check_value(self.value(k), self.sequences.text, k)?;
        }
        Ok(())
    }
}

// The energy that a value comes to.
pub fn gsorseq_to_gs(value: GsOrSeq, sequences: &[u8]) -> BaseEnergy
    ensures { result ≡ gs_or_seq_to_gs sequences.now value }
{
    match value {
        GsOrSeq::GS(dg, ds) => BaseEnergy { dg, ds },
        GsOrSeq::Seq(from, to) => single_energy(part_of(sequences, from, to)),
    }
}

// What is refused of the value of a key: a number that is not finite, with the key's place, or what its sequence is refused for.
fn check_value(value: GsOrSeq, sequences: &[u8], key: usize) -> Result<(), Refusal>
    ensures { result ≡ value_verdict key sequences.now value }
{
    match value {
        GsOrSeq::GS(dg, ds) if is_finite(dg) && is_finite(ds) => Ok(()),
        GsOrSeq::GS(_, _) => Err(Refusal::Energy(key)),
        GsOrSeq::Seq(from, to) => check_single(part_of(sequences, from, to), key),
    }
}
