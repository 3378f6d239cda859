// Entries of a lent text: entry i is what stands from offset i up to offset i + 1.
#![tactic(auto)]

ghost use Rattle.std.specs.Prelude.{◌≡◌, true, ◌+◌, ◌<◌, ◌^◌, ◌&&◌, eqb, length, get_or};
ghost use Rattle.text_entries.specs.Entries.{part, after, entry_of, offsets_fit, are_flags, entries_sized};

use units::MOST_NAME_BYTES;

// A text and where each of its entries begins, with the end of the last.
#[derive(Clone, Copy)]
pub struct Entries<'a> {
    pub text: &'a [u8],
    pub offsets: &'a [usize],
}

// Entries of which some may be absent: a presence byte of 1 says that one is there.
#[derive(Clone, Copy)]
pub struct Names<'a> {
    pub text: &'a [u8],
    pub offsets: &'a [usize],
    pub present: &'a [u8],
}

impl<'a> Entries<'a> {
    // Whether no offset falls or overruns the text.
    pub fn fit(&self) -> bool
        ensures { result ≡ offsets_fit (length self.now.text.now) self.now.offsets.now }
    {
        offsets_fit(self.offsets, self.text.len())
    }

    // Entry i, and where in the text it lies.
    pub fn entry(&self, i: usize) -> &'a [u8]
        requires i_in_bounds { i + 1 < length self.now.offsets.now }
        requires fit { offsets_fit (length self.now.text.now) self.now.offsets.now ≡ true }
        ensures bytes { result.now ≡ entry_of self.now.text.now self.now.offsets.now i }
        ensures place { result.ref_ptr ≡ after self.now.text.ref_ptr (get_or self.now.offsets.now i 0) }
    {
        &self.text[self.offsets[i]..self.offsets[i + 1]]
    }
}

impl<'a> Names<'a> {
    // The entries, whether present or not.
    pub fn entries(&self) -> Entries<'a>
        ensures text { result.text ≡ self.now.text }
        ensures offsets { result.offsets ≡ self.now.offsets }
    {
        Entries {
            text: self.text,
            offsets: self.offsets,
        }
    }

    // Whether there are this many entries: the text within its limit, the offsets and presence bytes as many as they must be.
    pub fn sized(&self, entries: usize) -> bool
        requires { entries < 2 ^ 63 }
        ensures { result ≡ entries_sized (length self.now.text.now) (length self.now.offsets.now) (length self.now.present.now) entries }
    {
        self.text.len() <= MOST_NAME_BYTES
            && self.offsets.len() == entries + 1
            && self.present.len() == entries
    }

    // Whether each presence byte is 0 or 1, and no offset falls or overruns the text.
    pub fn formed(&self) -> bool
        ensures { result ≡ (are_flags self.now.present.now && offsets_fit (length self.now.text.now) self.now.offsets.now) }
    {
        are_flags(self.present) && self.entries().fit()
    }

    // Whether entry i is present.
    pub fn is_present(&self, i: usize) -> bool
        requires { i < length self.now.present.now }
        ensures { result ≡ eqb (get_or self.now.present.now i 0) 1 }
    {
        self.present[i] == 1
    }

    // Entry i, and where in the text it lies.
    pub fn entry(&self, i: usize) -> &'a [u8]
        requires i_in_bounds { i + 1 < length self.now.offsets.now }
        requires fit { offsets_fit (length self.now.text.now) self.now.offsets.now ≡ true }
        ensures bytes { result.now ≡ entry_of self.now.text.now self.now.offsets.now i }
        ensures place { result.ref_ptr ≡ after self.now.text.ref_ptr (get_or self.now.offsets.now i 0) }
    {
        self.entries().entry(i)
    }
}

// Whether offsets never fall and never pass `end`, the length of their text.
pub fn offsets_fit(offsets: &[usize], end: usize) -> bool
    ensures { result ≡ offsets_fit end offsets.now }
{
    let mut last = 0;
    for &next in offsets {
        if next < last || end < next {
            return false;
        }
        last = next;
    }
    true
}

// Whether each byte is 0 or 1.
pub fn are_flags(bytes: &[u8]) -> bool
    ensures { result ≡ are_flags bytes.now }
{
    bytes.iter().all(|&byte| byte <= 1)
}

// What stands in a text from one place up to another, whatever these are: nothing where they fall, and no more than there is.
pub fn part_of(text: &[u8], from: usize, to: usize) -> &[u8]
    ensures { result.now ≡ part text.now from to }
{
    let to = to.min(text.len());
    if from < to { &text[from..to] } else { &[] }
}
