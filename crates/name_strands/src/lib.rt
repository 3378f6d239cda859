// The names of the strands, and the tests on them.
#![tactic(auto)]

ghost use Rattle.std.specs.Prelude.{◌≡◌, ◌<◌, length};
ghost use Rattle.name_strands.specs.Names.{strand_names_of, names_sized, null_first, names_read};

use text_entries::{Names, part_of};
use units::{MOST_STRANDS, from_one_to};

// The numerals text: two digits for each i from 0 to 62.
pub const NUMERALS: [u8; 126] =
    *b"000102030405060708091011121314151617181920212223242526272829303132333435363738394041424344454647484950515253545556575859606162";

// The names of the strands by number, and the numerals text, where the digits stand that are shown for a strand without a name.
#[derive(Clone, Copy)]
pub struct StrandNames<'a> {
    pub names: Names<'a>,
    pub numerals: &'a [u8],
}

impl StrandNames<'_> {
    // Whether the sizes and counts are right for this many strands.
    #[tactic(auto, unfolding(crate::specs::Names::names_sized))]
    pub fn sized(&self, strands: usize) -> bool
        ensures { result ≡ names_sized strands (strand_names_of self.now) }
    {
        from_one_to(MOST_STRANDS, strands) && self.names.sized(strands)
    }

    // Whether entry 0 is present and is `null`.
    #[tactic(auto, unfolding(crate::specs::Names::null_first))]
    fn null_first(&self) -> bool
        requires { (1 < length self.now.names.offsets.now) × (0 < length self.now.names.present.now) }
        ensures { result ≡ null_first (strand_names_of self.now) }
    {
        let names = &self.names;
        names.is_present(0)
            && part_of(names.text, names.offsets[0], names.offsets[1]) == b"null".as_slice()
    }

    // Whether names and numerals can be read.
    #[tactic(auto, unfolding(crate::specs::Names::names_read, crate::specs::Numerals::numerals_from))]
    pub fn readable(&self) -> bool
        requires { (1 < length self.now.names.offsets.now) × (0 < length self.now.names.present.now) }
        ensures { result ≡ names_read (strand_names_of self.now) }
    {
        self.names.formed() && self.null_first() && self.numerals == NUMERALS.as_slice()
    }
}
