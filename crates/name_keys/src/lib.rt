// The names of a key, and the glues that it joins.
#![tactic(auto)]

ghost use Rattle.std.specs.Prelude.{◌≡◌, true, ◌+◌, ◌<◌, length};
ghost use Rattle.text_entries.specs.Entries.{offsets_fit};
ghost use Rattle.name_base_list.specs.Bases.{Searchable};
ghost use Rattle.name_keys.specs.Names.{key_names_of, names_at, joined_by_one, joined_by_two, key_joined};

use name_base_list::{Bases, glue_number};
use text_entries::Entries;

// One name or two, as entries of the text.
#[derive(Clone, Copy, Debug, PartialEq, Eq)]
pub enum RefOrPair {
    Ref(usize),
    Pair(usize, usize),
}

// The two glues that a key joins, or nothing where a name is not registered.
#[derive(Clone, Copy, Debug, PartialEq, Eq)]
pub enum Joined {
    Glues(usize, usize),
    Nothing,
}

// The keys' names: entries 2k and 2k + 1 are those of key k, the second where `paired` is 1. The first `count` bases are registered; their names lie in the same text.
#[derive(Clone, Copy)]
pub struct KeyNames<'a> {
    pub names: Entries<'a>,
    pub paired: &'a [u8],
    pub bases: &'a [usize],
    pub count: usize,
}

impl KeyNames<'_> {
    // The names of key k.
    fn names_at(&self, k: usize) -> RefOrPair
        requires { k < length self.now.paired.now }
        ensures { result ≡ names_at self.now.paired.now k }
    {
        let first = k + k;
        if self.paired[k] == 1 {
            RefOrPair::Pair(first, first + 1)
        } else {
            RefOrPair::Ref(first)
        }
    }

    // What key k joins.
    pub fn joined(&self, k: usize) -> Joined
        requires k_in_bounds { k < length self.now.paired.now }
        requires offsets_len { length self.now.names.offsets.now ≡ length self.now.paired.now + length self.now.paired.now + 1 }
        requires fit { offsets_fit (length self.now.names.text.now) self.now.names.offsets.now ≡ true }
        requires searchable { Searchable self.now.names.text.now self.now.bases.now self.now.count }
        ensures { result ≡ key_joined (key_names_of self.now) k }
    {
        let bases = Bases {
            text: self.names.text,
            numbers: self.bases,
            count: self.count,
        };
        match self.names_at(k) {
            RefOrPair::Ref(name) => joined_by_one(&bases, self.names.entry(name)),
            RefOrPair::Pair(first, second) => {
                joined_by_two(&bases, self.names.entry(first), self.names.entry(second))
            }
        }
    }
}

// A key of one name joins base and inverse.
fn joined_by_one(bases: &Bases<'_>, name: &[u8]) -> Joined
    ensures { result ≡ joined_by_one bases.now.text.now bases.now.numbers.now bases.now.count name.now }
{
    match bases.number(name) {
        Some(j) => Joined::Glues(j * 2 + 1, j * 2 + 2),
        None => Joined::Nothing,
    }
}

// A key of two names joins what each resolves to.
fn joined_by_two(bases: &Bases<'_>, first: &[u8], second: &[u8]) -> Joined
    ensures { result ≡ joined_by_two bases.now.text.now bases.now.numbers.now bases.now.count first.now second.now }
{
    match (bases.number(first), bases.number(second)) {
        (Some(i), Some(j)) => Joined::Glues(
            glue_number(i, first) as usize,
            glue_number(j, second) as usize,
        ),
        _ => Joined::Nothing,
    }
}
