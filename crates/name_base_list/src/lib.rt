// A list of bases: place 2j holds the offset and place 2j + 1 the length of base j in the text of names.
#![tactic(auto)]

ghost use Rattle.std.specs.Prelude.{◌≡◌, true, ◌+◌, ◌≤◌, length};
ghost use Rattle.units.specs.Limits.{most_bases};
ghost use Rattle.text_entries.specs.InOrder.{found};
ghost use Rattle.name_base_list.specs.Bases.{bases_fit, find_base, base_number, glue_of, Searchable};

use name_stars::{is_from, self_and_inverse};

// The first `count` bases of a list, each of which lies within the text.
#[derive(Clone, Copy)]
pub struct Bases<'a> {
    pub text: &'a [u8],
    pub numbers: &'a [usize],
    pub count: usize,
    ghost searchable: { Searchable text.now numbers.now count },
}

impl<'a> Bases<'a> {
    // The first base of this name.
    fn find(&self, name: &[u8]) -> Option<usize>
        ensures place { result ≡ found self.now.count (find_base self.now.text.now self.now.numbers.now self.now.count name.now) }
        ensures within { find_base self.now.text.now self.now.numbers.now self.now.count name.now ≤ self.now.count }
    {
        for j in 0..self.count {
            let from = self.numbers[j + j];
            let to = from + self.numbers[j + j + 1];
            if &self.text[from..to] == name {
                return Some(j);
            }
        }
        None
    }

    // The number of a name's base, if it is in the list.
    pub fn number(&self, name: &[u8]) -> Option<usize>
        ensures place { result ≡ found self.now.count (base_number self.now.text.now self.now.numbers.now self.now.count name.now) }
        ensures within { base_number self.now.text.now self.now.numbers.now self.now.count name.now ≤ self.now.count }
    {
        self.find(self_and_inverse(name))
    }
}

// Whether the first `count` bases lie within a text of this length.
pub fn bases_fit(end: usize, bases: &[usize], count: usize) -> bool
    requires { count + count ≤ length bases.now }
    ensures { result ≡ bases_fit end bases.now count }
{
    for j in 0..count {
        let offset = bases[j + j];
        let size = bases[j + j + 1];
        if end < offset || end - offset < size {
            return false;
        }
    }
    true
}

// The glue of a name whose base is base j: 2j + 1 for the base, 2j + 2 for its inverse.
pub fn glue_number(j: usize, name: &[u8]) -> u32
    requires { j ≤ most_bases }
    ensures { result ≡ glue_of j name.now }
{
    let base = (j as u32) * 2 + 1;
    if is_from(name) { base } else { base + 1 }
}
