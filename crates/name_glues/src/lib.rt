// Names of glues as entries: the base and the glue of each by a list of bases, and which names of the scaffold end in two or more stars.
#![tactic(auto)]

ghost use Rattle.std.specs.Prelude.{◌≡◌, ◌-◌, ◌≤◌, ◌<◌, ◌^◌, length, true, false, IfSome, IfNone};
ghost use Rattle.name_base_list.specs.Bases.{Searchable};
ghost use Rattle.name_glues.specs.Names.{names_of, name_at, is_present, GluesReadable};
ghost use Rattle.name_glues.specs.Glues.{glue_at};
ghost use Rattle.name_glues.specs.Starred.{is_starred, stars_verdict};

use name_base_list::{Bases, glue_number};
use name_stars::star_count;
use text_entries::Names;
use units::Refusal;

// Names that can be read: each lies within the text, and there is a presence byte for each.
#[derive(Clone, Copy)]
pub struct GlueNames<'a> {
    pub names: Names<'a>,
    ghost readable: { GluesReadable (names_of names) },
    // As any slice's length; a place computed from another stays a usize.
    ghost countable: { length names.present.now < 2 ^ 64 },
}

// Readable names and the first `count` bases of a list, by which they are numbered.
#[derive(Clone, Copy)]
pub struct Registry<'a> {
    pub names: GlueNames<'a>,
    pub bases: &'a [usize],
    pub count: usize,
    ghost searchable: { Searchable names.names.text.now bases.now count },
}

impl<'a> GlueNames<'a> {
    // How many entries there are.
    pub fn count(&self) -> usize
        ensures { result ≡ length self.now.names.present.now }
    {
        self.names.present.len()
    }

    // The name of entry i, if it has one.
    pub fn name(&self, i: usize) -> Option<&'a [u8]>
        requires { i < length self.now.names.present.now }
        ensures present { IfSome result (λ name. (is_present (names_of self.now.names) i ≡ true) × (name.now ≡ name_at (names_of self.now.names) i)) }
        ensures absent { IfNone result (is_present (names_of self.now.names) i ≡ false) }
    {
        if self.names.is_present(i) {
            Some(self.names.entry(i))
        } else {
            None
        }
    }

    // Whether entry i has a name with two or more stars.
    fn is_starred(&self, i: usize) -> bool
        requires { i < length self.now.names.present.now }
        ensures { result ≡ is_starred (names_of self.now.names) i }
    {
        self.name(i).is_some_and(|name| 2 <= star_count(name))
    }

    // Refusal 16 with the bay where a scaffold name is starred; the entries from `from` on are the bays.
    pub fn check_stars(&self, from: usize) -> Result<(), Refusal>
        requires { from ≤ length self.now.names.present.now }
        ensures { result ≡ stars_verdict (names_of self.now.names) from (length self.now.names.present.now - from) }
    {
        for bay in 0..self.count() - from {
            if self.is_starred(from + bay) {
                return Err(Refusal::Starred(bay));
            }
        }
        Ok(())
    }
}

impl<'a> Registry<'a> {
    // The bases, and the text that they lie in.
    pub fn list(&self) -> Bases<'a>
        ensures text { result.text ≡ self.now.names.names.text }
        ensures numbers { result.numbers ≡ self.now.bases }
        ensures count { result.count ≡ self.now.count }
    {
        Bases {
            text: self.names.names.text,
            numbers: self.bases,
            count: self.count,
        }
    }

    // The glue of entry i, 0 where it has no name.
    pub fn glue_at(&self, i: usize) -> u32
        requires { i < length self.now.names.names.present.now }
        ensures { result ≡ glue_at (names_of self.now.names.names) self.now.bases.now self.now.count i }
    {
        match self.names.name(i) {
            Some(name) => glue_number(self.list().number(name).unwrap_or(self.count), name),
            None => 0,
        }
    }
}
