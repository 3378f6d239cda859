// The names of a case's strands, read into two tables that other fields share: one of bytes, one of numbers.
use case_field_reads::at_most;
use case_lists::text_into;
use case_parts::{list_between, part_from, text_between};
use case_text::{field, has_field};
use name_strands::{NUMERALS, StrandNames};
use text_entries::Names;

// How long each part of the names is.
#[derive(Clone, Copy)]
pub(crate) struct NameLengths {
    pub(crate) text: usize,
    pub(crate) present: usize,
    pub(crate) numerals: usize,
    pub(crate) offsets: usize,
}

impl NameLengths {
    // The names in the two tables.
    pub(crate) fn names<'a>(&self, bytes: &'a [u8], numbers: &'a [usize]) -> StrandNames<'a> {
        StrandNames {
            names: Names {
                text: part_from(bytes, 0, self.text),
                offsets: part_from(numbers, 0, self.offsets),
                present: part_from(bytes, 32800, self.present),
            },
            numerals: part_from(bytes, 32880, self.numerals),
        }
    }
}

// The numerals of a case; the right ones where it has none.
fn numerals_into(line: &[u8], room: &mut [u8]) -> Option<usize> {
    if has_field(line, b"numerals") {
        return text_into(field(line, b"numerals"), room);
    }
    text_into(&NUMERALS, room)
}

// The same, to the places of a table between two.
fn numerals_between(line: &[u8], room: &mut [u8], from: usize, to: usize) -> Option<usize> {
    let end = at_most(to, room.len());
    let start = at_most(from, end);
    numerals_into(line, &mut room[start..end])
}

// The names from 0 on, their presence from 32800, the numerals from 32880; the offsets from 0.
pub(crate) fn read_names(
    line: &[u8],
    bytes: &mut [u8],
    numbers: &mut [usize],
) -> Option<NameLengths> {
    let text = text_between(line, b"text", bytes, 0, 16400)?;
    let present = list_between(line, b"present", bytes, 32800, 32880)?;
    let numerals = numerals_between(line, bytes, 32880, 33136)?;
    let offsets = list_between(line, b"offsets", numbers, 0, 80)?;
    Some(NameLengths {
        text,
        present,
        numerals,
        offsets,
    })
}
