// The front of a slice by a count: what was read into it, or written. A count past the end gives
// the whole slice, so that a caller has nothing to show; a byte past the end is 0 likewise.
#![tactic(auto)]

ghost use Rattle.std.specs.Prelude.{◌≡◌, min, get_or, take};

// The first n elements of a slice, all where it has fewer.
pub fn front<T>(s: &[T], n: usize) -> &[T]
    ensures { result.now ≡ take n s.now }
{
    &s[..n.min(s.len())]
}

// The smaller of two numbers.
pub fn least(a: usize, b: usize) -> usize
    ensures { result ≡ min a b }
{
    a.min(b)
}

// The byte at a place, 0 past the end.
pub fn byte_at(text: &[u8], at: usize) -> u8
    ensures { result ≡ get_or text.now at 0 }
{
    text.get(at).copied().unwrap_or(0)
}
