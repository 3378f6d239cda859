// The words of the command line: which are options, which belong to one, and which are folders. A word is told by its place among the arguments.
use text_fronts::front;

// The word at a place, read into a lent room; nothing where none stands there or it is too long.
pub(crate) fn word_at<'a>(rt: &HostRuntime, place: usize, room: &'a mut [u8]) -> &'a [u8] {
    let n = text_host::arg(rt, place, room);
    front(room, n)
}

// Whether a word stands at a place.
fn is_word(rt: &HostRuntime, place: usize, word: &[u8]) -> bool {
    let mut room = io::buffer();
    word_at(rt, place, &mut room) == word
}

// Whether the word at a place begins with a dash.
fn is_dashed(rt: &HostRuntime, place: usize) -> bool {
    let mut room = io::buffer();
    word_at(rt, place, &mut room).starts_with(b"-")
}

// Whether the word at a place is as short as a path has to be.
fn is_short(rt: &HostRuntime, place: usize) -> bool {
    let mut room = io::buffer();
    text_host::fits(rt, place, &mut room)
}

// The first place from one on that has a word.
fn place_from(rt: &HostRuntime, word: &[u8], from: usize) -> Option<usize> {
    (from..text_host::arg_count(rt)).find(|place| is_word(rt, *place, word))
}

// The first place that has a word.
pub(crate) fn place_of(rt: &HostRuntime, word: &[u8]) -> Option<usize> {
    place_from(rt, word, 1)
}

// Whether a word is among the arguments.
pub(crate) fn is_there(rt: &HostRuntime, word: &[u8]) -> bool {
    place_of(rt, word).is_some()
}

// Whether a word stands twice.
pub(crate) fn stands_twice(rt: &HostRuntime, word: &[u8]) -> bool {
    match place_of(rt, word) {
        Some(first) => place_from(rt, word, first.saturating_add(1)).is_some(),
        None => false,
    }
}

// Whether an option that takes a value stands at a place.
fn takes_value(rt: &HostRuntime, place: usize) -> bool {
    is_word(rt, place, b"--why") || is_word(rt, place, b"--svg")
}

// Whether an option that stands alone is at a place.
fn stands_alone(rt: &HostRuntime, place: usize) -> bool {
    is_word(rt, place, b"--exact")
        || is_word(rt, place, b"--each")
        || is_word(rt, place, b"--sheet")
        || is_word(rt, place, b"--progress")
        || is_word(rt, place, b"--outcome")
        || is_word(rt, place, b"--help")
}

// Whether the word at a place is the value of the option before it.
fn is_value(rt: &HostRuntime, place: usize) -> bool {
    2 <= place && takes_value(rt, place - 1)
}

// Whether the word at a place is a folder.
pub(crate) fn is_folder(rt: &HostRuntime, place: usize) -> bool {
    !is_dashed(rt, place) && !is_value(rt, place)
}

// How many folders are named.
pub(crate) fn folders(rt: &HostRuntime) -> usize {
    (1..text_host::arg_count(rt))
        .filter(|place| is_folder(rt, *place))
        .count()
}

// What is wrong with a word: each variant is a fault, and a word without one has the answer `None`.
#[derive(Clone, Copy, PartialEq, Eq)]
pub(crate) enum Fault {
    TooLong,
    NoOption,
    NoValue,
}

// What is wrong with the word at a place.
fn word_fault(rt: &HostRuntime, place: usize) -> Option<Fault> {
    if !is_short(rt, place) {
        return Some(Fault::TooLong);
    }
    if takes_value(rt, place) {
        return value_fault(rt, place.saturating_add(1));
    }
    if is_dashed(rt, place) && !stands_alone(rt, place) {
        return Some(Fault::NoOption);
    }
    None
}

// What is wrong with the value of an option, which has to stand at a place.
fn value_fault(rt: &HostRuntime, place: usize) -> Option<Fault> {
    if text_host::arg_count(rt) <= place || is_dashed(rt, place) {
        return Some(Fault::NoValue);
    }
    None
}

// A word with its fault.
#[derive(Clone, Copy, PartialEq, Eq)]
pub(crate) struct WordFault {
    pub(crate) place: usize,
    pub(crate) fault: Fault,
}

// The first word that has one.
pub(crate) fn first_fault(rt: &HostRuntime) -> Option<WordFault> {
    for place in 1..text_host::arg_count(rt) {
        if let Some(fault) = word_fault(rt, place) {
            return Some(WordFault { place, fault });
        }
    }
    None
}
