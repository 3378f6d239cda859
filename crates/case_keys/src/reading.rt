// The fields of a case on energy keys: which table holds each, from which place on, and how much was read of it.
use case_fields::{number_field, number_or};
use case_parts::{list_between, part_from, text_between};
use case_text::front;
use sdc2d::{KeyNames, KeyValues};
use text_entries::Entries;
use units::BASE_NUMBERS;

// The lengths of the texts and bytes of a case.
#[derive(Clone, Copy)]
pub(crate) struct TextLengths {
    pub(crate) text: usize,
    pub(crate) sequences: usize,
    pub(crate) paired: usize,
    pub(crate) kinds: usize,
}

// The names of the keys from 0 on, the sequences from 16400, whether a key is of two names from 32800, its kind from 32864.
pub(crate) fn read_texts(line: &[u8], room: &mut [u8]) -> Option<TextLengths> {
    let text = text_between(line, b"text", room, 0, 16400)?;
    let sequences = text_between(line, b"sequences", room, 16400, 32800)?;
    let paired = list_between(line, b"paired", room, 32800, 32864)?;
    let kinds = list_between(line, b"kinds", room, 32864, 32928)?;
    Some(TextLengths {
        text,
        sequences,
        paired,
        kinds,
    })
}

// The lengths of the lists of numbers of a case.
#[derive(Clone, Copy)]
pub(crate) struct ListLengths {
    pub(crate) offsets: usize,
    pub(crate) sequence_offsets: usize,
    pub(crate) bases: usize,
}

// The offsets of names from 0 on, those of sequences from 128, the bases from 192, which zeros follow.
pub(crate) fn read_lists(line: &[u8], room: &mut [usize]) -> Option<ListLengths> {
    let offsets = list_between(line, b"offsets", room, 0, 128)?;
    let sequence_offsets = list_between(line, b"sequence_offsets", room, 128, 192)?;
    let bases = list_between(line, b"bases", room, 192, 492)?;
    Some(ListLengths {
        offsets,
        sequence_offsets,
        bases,
    })
}

// The single numbers of a case.
#[derive(Clone, Copy)]
pub(crate) struct Numbers {
    pub(crate) bases_length: usize,
    pub(crate) count: usize,
    pub(crate) side: usize,
}

// The right side for so many bases; for more than a table can have, that of 128.
fn side_for(count: usize) -> usize {
    if count < 128 { count * 2 + 1 } else { 257 }
}

// The numbers of a case that lists so many bases.
pub(crate) fn read_numbers(line: &[u8], bases: usize) -> Option<Numbers> {
    let bases_length = number_or(line, b"bases_length", BASE_NUMBERS.max(bases))? as usize;
    let count = number_field(line, b"count")? as usize;
    let side = number_or(line, b"side", side_for(count))? as usize;
    Some(Numbers {
        bases_length,
        count,
        side,
    })
}

// The names of the keys, in the two tables.
pub(crate) fn key_names<'a>(
    texts: TextLengths,
    lists: ListLengths,
    asked: Numbers,
    bytes: &'a [u8],
    numbers: &'a [usize],
) -> KeyNames<'a> {
    KeyNames {
        names: Entries {
            text: part_from(bytes, 0, texts.text),
            offsets: part_from(numbers, 0, lists.offsets),
        },
        paired: part_from(bytes, 32800, texts.paired),
        bases: part_from(numbers, 192, asked.bases_length),
        count: asked.count,
    }
}

// What the keys give, in the same tables; so many of the energies were read.
pub(crate) fn key_values<'a>(
    texts: TextLengths,
    lists: ListLengths,
    bytes: &'a [u8],
    numbers: &'a [usize],
    energies: &'a [f64],
    floats: usize,
) -> KeyValues<'a> {
    KeyValues {
        kinds: part_from(bytes, 32864, texts.kinds),
        numbers: front(energies, floats),
        sequences: Entries {
            text: part_from(bytes, 16400, texts.sequences),
            offsets: part_from(numbers, 128, lists.sequence_offsets),
        },
    }
}
