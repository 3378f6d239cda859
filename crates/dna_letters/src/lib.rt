// Letters and the bases that they stand for: which bytes are letters, which base binds which, and the tests of a sequence's letters and length.
#![tactic(auto)]

ghost use Rattle.std.specs.Prelude.{◌≡◌};
ghost use Rattle.dna_letters.specs.Bases.{connects_to, index_of, good_match};
ghost use Rattle.dna_letters.specs.Letters.{is_letter, first_bad, letters_verdict, length_verdict};

use units::{MOST_LETTERS, Refusal};

// In the Rust's order, which is that of its tables.
#[derive(Clone, Copy, Debug, PartialEq, Eq)]
pub enum DnaNucleotideBase {
    A,
    T,
    G,
    C,
}

impl DnaNucleotideBase {
    // The base that binds this one.
    pub fn connects_to(self) -> Self
        ensures { result ≡ connects_to self }
    {
        match self {
            DnaNucleotideBase::A => DnaNucleotideBase::T,
            DnaNucleotideBase::T => DnaNucleotideBase::A,
            DnaNucleotideBase::G => DnaNucleotideBase::C,
            DnaNucleotideBase::C => DnaNucleotideBase::G,
        }
    }

    // The base's place in a table.
    pub fn index(self) -> usize
        ensures { result ≡ index_of self }
    {
        match self {
            DnaNucleotideBase::A => 0,
            DnaNucleotideBase::T => 1,
            DnaNucleotideBase::G => 2,
            DnaNucleotideBase::C => 3,
        }
    }
}

// The base of a letter, in either case. Another byte is taken for C: the tests refuse it before it counts.
impl From<u8> for DnaNucleotideBase {
    ghost use Rattle.dna_letters.specs.Bases.{base_of};

    ghost from_gives = { λ letter base. base ≡ base_of letter };

    #[tactic(auto, unfolding(crate::specs::Bases::base_of))]
    fn from(letter: u8) -> Self {
        match letter {
            b'a' | b'A' => DnaNucleotideBase::A,
            b't' | b'T' => DnaNucleotideBase::T,
            b'g' | b'G' => DnaNucleotideBase::G,
            _ => DnaNucleotideBase::C,
        }
    }
}

// Whether two bases written one over the other bind.
pub fn good_match(a: DnaNucleotideBase, b: DnaNucleotideBase) -> bool
    ensures { result ≡ good_match a b }
{
    a.connects_to() == b
}

// Whether a byte is one of acgtACGT.
#[tactic(auto, unfolding(crate::specs::Letters::is_letter))]
pub fn is_letter(letter: u8) -> bool
    ensures { result ≡ is_letter letter }
{
    matches!(
        letter,
        b'a' | b'A' | b'c' | b'C' | b'g' | b'G' | b't' | b'T'
    )
}

// The place of the first byte that is no letter.
fn first_bad(dna: &[u8]) -> Option<usize>
    ensures { result ≡ first_bad dna.now }
{
    dna.iter().position(|&letter| !is_letter(letter))
}

// Refusal 11 with the sequence and the place where a byte is no letter.
pub fn check_letters(dna: &[u8], sequence: usize) -> Result<(), Refusal>
    ensures { result ≡ letters_verdict sequence dna.now }
{
    match first_bad(dna) {
        Some(place) => Err(Refusal::Letter(sequence, place)),
        None => Ok(()),
    }
}

// Refusal 13 where a sequence is too long.
pub fn check_length(dna: &[u8]) -> Result<(), Refusal>
    ensures { result ≡ length_verdict dna.now }
{
    if MOST_LETTERS < dna.len() {
        return Err(Refusal::SequenceLength);
    }
    Ok(())
}
