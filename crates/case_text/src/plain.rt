// Which bytes stand for themselves in a text. Any other is written `%` and two hexadecimal digits.
ghost use Rattle.std.specs.Prelude.{◌≡◌};
ghost use Rattle.case_text.specs.Plain.{is_plain};

// Whether a byte stands for itself: it prints, and is no space, no `%` and no comma.
#[tactic(auto, unfolding(crate::specs::Plain::is_plain))]
pub fn is_plain(n: u64) -> bool
    ensures { result ≡ is_plain n }
{
    33 <= n && n <= 126 && n != 37 && n != 44
}
