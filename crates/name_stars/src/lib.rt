// A glue's name: its base, which is the name without its trailing stars, and the stars.
#![tactic(auto)]

ghost use Rattle.std.specs.Prelude.{◌≡◌, ◌≤◌, length};
ghost use Rattle.name_stars.specs.Stars.{base_length, base_of, star_count, is_from};

// How many bytes of a name stand before its trailing stars.
pub fn base_length(name: &[u8]) -> usize
    ensures { (result ≡ base_length name.now) × (result ≤ length name.now) }
{
    for n in (1..=name.len()).rev() {
        if name[n - 1] != b'*' {
            return n;
        }
    }
    0
}

// The base, as the leading part of the lent name. Whether the name means the base or its inverse is `is_from`.
pub fn self_and_inverse(name: &[u8]) -> &[u8]
    ensures bytes { result.now ≡ base_of name.now }
    ensures place { result.ref_ptr ≡ name.entry.ref_ptr }
{
    let n = base_length(name);
    &name[..n]
}

// How many trailing stars a name has.
pub fn star_count(name: &[u8]) -> usize
    ensures { result ≡ star_count name.now }
{
    name.len() - base_length(name)
}

// Whether a name means its base: an even number of stars does, an odd number means the inverse.
pub fn is_from(name: &[u8]) -> bool
    ensures { result ≡ is_from name.now }
{
    star_count(name) % 2 == 0
}
