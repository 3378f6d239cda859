// Where a line, a field or an item ends: a search for the byte that ends it. What no byte ends is ended by its text, so there
// always is a place, and an `Option` would be no plainer.
ghost use Rattle.std.specs.Prelude.{◌≡◌};
ghost use Rattle.case_text.specs.Places.{place_of, Onward};

// The first place of `byte` in `text` at or after `from`, or the text's length where there is none.
pub(crate) fn place_of(text: &[u8], from: usize, byte: u8) -> usize
    ensures value { result ≡ place_of byte text.now from }
    ensures onward { Onward from text.now result }
{
    if text.len() <= from {
        return text.len();
    }
    text_search::find(text, from, text.len(), byte).unwrap_or(text.len())
}

// The place of the next line feed at or after `from`, or the text's length where there is none.
pub fn line_end(text: &[u8], from: usize) -> usize
    ensures value { result ≡ place_of 10 text.now from }
    ensures onward { Onward from text.now result }
{
    place_of(text, from, b'\n')
}

// The place of the next comma at or after `from`, or the value's length where there is none.
pub fn item_end(value: &[u8], from: usize) -> usize
    ensures value { result ≡ place_of 44 value.now from }
    ensures onward { Onward from value.now result }
{
    place_of(value, from, b',')
}
