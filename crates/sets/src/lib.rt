// A set of strands as one 64-bit word, whose bit t says whether strand t is in it. Strands are
// numbered from 0, and a number of 64 or more is in no set. A contract says what a result is by
// the strands in it, never by bits: the laws of these names stand in `proofs/`, over any number
// of words.
#![tactic(auto)]

ghost use Rattle.std.specs.Prelude.{◌≡◌, false, ◌&&◌, ◌||◌, eqb, length};
ghost use Rattle.sets.specs.Set.{has, word, members, next_of, rest_of};

// The set with no strand in it.
pub fn empty() -> u64
    ensures { result ≡ word (λ s. false) 64 }
{
    0
}

// The set of strand `t` alone, and the empty set for a `t` of 64 or more.
pub fn only(t: u32) -> u64
    ensures { result ≡ word (λ s. eqb s t) 64 }
{
    if t < 64 { 1 << t } else { 0 }
}

// Whether strand `t` is in the set.
pub fn holds(set: u64, t: u32) -> bool
    ensures { result ≡ has set t }
{
    t < 64 && (set >> t) % 2 == 1
}

// The set with strand `t` in it. A `t` of 64 or more leaves it as it is.
pub fn with(set: u64, t: u32) -> u64
    ensures { result ≡ word (λ s. has set s || eqb s t) 64 }
{
    set | only(t)
}

// The set with strand `t` in it where `legal` says so: one step of building a set by a test of
// each strand (`proofs/Build.antt`).
pub fn with_if(set: u64, t: u32, legal: bool) -> u64
    ensures { result ≡ word (λ s. has set s || (legal && eqb s t)) 64 }
{
    if legal { with(set, t) } else { set }
}

// The strands that are in both sets.
pub fn both(a: u64, b: u64) -> u64
    ensures { result ≡ word (λ s. has a s && has b s) 64 }
{
    a & b
}

// How many strands are in the set.
pub fn size(set: u64) -> u32
    ensures { result ≡ length (members (has set) 64) }
{
    u64::count_ones(set)
}

// How many strands of the set are below `t`: the position of `t` among its strands, where it is
// one of them.
pub fn position(set: u64, t: u32) -> u32
    ensures { result ≡ length (members (has set) t) }
{
    if t < 64 {
        u64::count_ones(set & (only(t) - 1))
    } else {
        u64::count_ones(set)
    }
}

// The first strand of the set at or after `from`, and 64 where there is none.
pub fn next(set: u64, from: u32) -> u32
    ensures { result ≡ next_of (has set) from 64 }
{
    if from < 64 {
        u64::trailing_zeros((set >> from) << from)
    } else {
        64
    }
}

// Whether no strand is in the set.
pub fn is_empty(set: u64) -> bool
    ensures { result ≡ eqb (length (members (has set) 64)) 0 }
{
    set == 0
}

// The lowest strand of the set, and 64 where there is none.
pub fn first(set: u64) -> u32
    ensures { result ≡ next_of (has set) 0 64 }
{
    u64::trailing_zeros(set)
}

// The set without its lowest strand: a step of a walk that takes strands away
// (`proofs/Taking.antt`). The empty set stays empty.
pub fn rest(set: u64) -> u64
    ensures { result ≡ word (rest_of (has set) 64) 64 }
{
    if set == 0 { 0 } else { set & (set - 1) }
}
