// What the words ask for.
use crate::bays::Bay;
use crate::words::{is_there, place_of, word_at};
use sheet_number_lists::plain_number;

// How a layout is reported.
#[derive(Clone, Copy, PartialEq, Eq)]
pub(crate) enum Report {
    // A line.
    Summary,
    // A sheet of strand numbers.
    Sheet,
    // The grid of names, and the reason of each bay.
    Whole,
}

// What is to be shown: `exact` asks for the bits of energies, `several` says that more than one folder is planned, `why` is the bay that is asked
// about, and `svg` the place of the word that names the drawing's file. The two flags are questions of their own: each answer of one goes with each of
// the other.
#[derive(Clone, Copy)]
pub(crate) struct Wish {
    pub(crate) exact: bool,
    pub(crate) report: Report,
    pub(crate) several: bool,
    pub(crate) why: Option<Bay>,
    pub(crate) svg: Option<usize>,
}

// A row or column from 1 on.
fn count_of(text: &[u8]) -> Option<usize> {
    match plain_number(text)? {
        0 => None,
        number => Some(number as usize),
    }
}

// The bay that `ROW,COLUMN` names.
fn bay_of(text: &[u8]) -> Option<Bay> {
    let comma = text.iter().position(|byte| *byte == b',')?;
    let row = count_of(&text[..comma])?;
    let column = count_of(&text[comma + 1..])?;
    Some(Bay { row, column })
}

// The bay that the word at a place names.
pub(crate) fn bay_at(rt: &HostRuntime, place: usize) -> Option<Bay> {
    let mut room = io::buffer();
    bay_of(word_at(rt, place, &mut room))
}

// The place after that of an option.
pub(crate) fn value_place(rt: &HostRuntime, option: &[u8]) -> Option<usize> {
    let place = place_of(rt, option)?;
    Some(place.saturating_add(1))
}

// How the layout of one folder or of several is reported: several have a line each unless the whole is asked for.
pub(crate) fn report_of(rt: &HostRuntime, folders: usize) -> Report {
    if is_there(rt, b"--sheet") {
        return Report::Sheet;
    }
    if folders == 1 || is_there(rt, b"--each") || is_there(rt, b"--why") {
        return Report::Whole;
    }
    Report::Summary
}
