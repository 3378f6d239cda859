// The number that a word is.
ghost use Rattle.std.specs.Prelude.{◌≡◌};
ghost use Rattle.sheet_number_lists.specs.Counts.{plain_number};

use text_digits::whole;

// Decimal digits, no 0 in front of another digit, below 2^32.
#[tactic(auto, using(crate::proofs::Numbers::plain_by))]
pub fn plain_number(word: &[u8]) -> Option<u32>
    ensures { result ≡ plain_number word.now }
{
    if word.is_empty() || word.len() != 1 && word[0] == b'0' {
        return None;
    }
    u32::try_from(whole(word, 10)?).ok()
}
