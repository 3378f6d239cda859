// The search for a byte in a part of a text.
#![tactic(auto)]

ghost use Rattle.std.specs.Prelude.{◌≡◌, ◌≤◌, ◌==◌, length, position};
ghost use Rattle.text_search.specs.Search.{place_in};

// The first place of `byte` in the text from one place to another, if it stands there.
pub fn find(text: &[u8], from: usize, to: usize, byte: u8) -> Option<usize>
    requires { (from ≤ to) × (to ≤ length text.now) }
    ensures { result ≡ place_in byte from to text.now }
{
    let place = first(&text[from..to], byte)?;
    Some(from + place)
}

// The first place of `byte` in a text.
fn first(text: &[u8], byte: u8) -> Option<usize>
    ensures { result ≡ position (λ b. b == byte) text.now }
{
    text.iter().position(|&b| b == byte)
}
