// The bases of a registering: which bases the entries bring, and whether they are too many.
#![tactic(auto)]

ghost use Rattle.std.specs.Prelude.{◌≡◌, ◌+◌, ◌≤◌, ◌<◌, ◌∷◌, ◌++◌, length, take, drop, OnOk, IfErr};
ghost use Rattle.units.specs.Refusals.{answer, refuses};
ghost use Rattle.name_glues.specs.Names.{names_of};
ghost use Rattle.name_new_bases.specs.Bases.{is_new, firsts_to, count_verdict};
ghost use Rattle.name_new_bases.specs.Steps.{base_list, Holds};

use name_glues::{GlueNames, Registry};
use name_stars::base_length;
use units::{BASE_NUMBERS, MOST_BASES, Refusal};

// The bases that names bring, as offset and length of each; the rest is 0.
#[derive(Clone, Copy)]
pub struct BaseList {
    pub numbers: [usize; BASE_NUMBERS],
    pub count: usize,
}

impl BaseList {
    // Writes a base's offset and length behind the others.
    fn push(&mut self, offset: usize, size: usize)
        requires { self.old.count + self.old.count + 2 ≤ length self.old.numbers }
        ensures count { self.new.count ≡ self.old.count + 1 }
        ensures numbers { let at = self.old.count + self.old.count in
            self.new.numbers ≡ take at self.old.numbers ++ (offset ∷ size ∷ drop (at + 2) self.old.numbers) }
    {
        let at = self.count + self.count;
        self.numbers[at] = offset;
        self.numbers[at + 1] = size;
        self.count += 1;
    }

    // Looks entry i up, and adds its base where it is new. Refusal 15 with the entry where it is one too many.
    fn get_or_generate(&mut self, names: &GlueNames<'_>, i: usize) -> Result<(), Refusal>
        requires i_in_bounds { i < length names.now.names.present.now }
        requires holds { Holds (names_of names.now.names) i self.old.numbers self.old.count }
        ensures ok { OnOk result (Holds (names_of names.now.names) (i + 1) self.new.numbers self.new.count) }
        ensures err { IfErr result (λ r. count_verdict (firsts_to (names_of names.now.names) (i + 1)) ≡ refuses r) }
    {
        let registry = Registry {
            names: *names,
            bases: &self.numbers,
            count: self.count,
        };
        if !is_new(&registry, i) {
            return Ok(());
        }
        if self.count == MOST_BASES {
            return Err(Refusal::TooManyBases(i));
        }
        self.push(names.names.offsets[i], base_length(names.names.entry(i)));
        Ok(())
    }
}

// Whether entry i has a name whose base is not in the list.
fn is_new(registry: &Registry<'_>, i: usize) -> bool
    requires { i < length registry.now.names.names.present.now }
    ensures { let n = names_of registry.now.names.names in
        result ≡ is_new n registry.now.bases.now registry.now.count i }
{
    match registry.names.name(i) {
        Some(name) => registry.list().number(name).is_none(),
        None => false,
    }
}

// The bases that the entries bring; refusal 15 where they are too many.
pub fn collect(names: &GlueNames<'_>) -> Result<BaseList, Refusal>
    ensures { let n = names_of names.now.names in
        let firsts = firsts_to n (length names.now.names.present.now) in
        result ≡ answer (count_verdict firsts) (base_list n firsts) }
{
    let mut list = BaseList {
        numbers: [0; BASE_NUMBERS],
        count: 0,
    };
    for i in 0..names.count() {
        list.get_or_generate(names, i)?;
    }
    Ok(list)
}
