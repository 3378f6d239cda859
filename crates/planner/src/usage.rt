// How the planner is called, and what is said where it is called otherwise.
use crate::bays::Bay;
use crate::messages::{Told, say};
use crate::wish::{Wish, bay_at, report_of, value_place};
use crate::words::{Fault, WordFault, first_fault, is_there, stands_twice, word_at};

// Writes how the planner is called.
pub(crate) fn write_help() -> Result<(), Told> {
    let written = io::write_all(
        1,
        b"planner [OPTIONS] FOLDER...\n\
Plans the layout of least energy for each folder of sheets, and says why every\n\
bay holds what it holds.\n\n  \
--why ROW,COLUMN  for each strand: is it legal in that bay, at which energy\n  \
--exact           energies with their bits beside them\n  \
--sheet           the layout as a sheet of strand numbers, for the register\n  \
--svg FILE        a drawing of the layout\n  \
--each            of several folders the whole of each, not one line\n  \
--progress        say on standard error which folder is planned\n  \
--help            this text\n\n\
A folder has six sheets of comma-separated values:\n  \
strands.csv       name, logarithm of concentration, glue north, east, south,\n                    \
west and bottom: one strand a line\n  \
scaffold.csv      the grid of glue names\n  \
energies.csv      name, second name or nothing, dG, dS, or else a sequence\n  \
seeds.csv         row, column, strand name; or the word none\n  \
temperature.csv   kelvin\n  \
constraints.csv   the register's sheet: a 0 alone keeps a bay empty\n",
    );
    if written {
        return Ok(());
    }
    Err(say(b"--help", b"standard output cannot be written"))
}

// Says what is wrong with a word.
fn say_word(rt: &HostRuntime, wrong: WordFault) -> Told {
    let mut room = io::buffer();
    let word = word_at(rt, wrong.place, &mut room);
    match wrong.fault {
        Fault::TooLong => say(b"usage", b"a word is longer than 4095 bytes"),
        Fault::NoOption => say(word, b"there is no such option; --help has them all"),
        Fault::NoValue => say(
            word,
            b"this option takes a value behind it, as --why 2,3 or --svg layout.svg",
        ),
    }
}

// Tests that options which go with one folder have one.
fn check_folders(rt: &HostRuntime, count: usize) -> Result<(), Told> {
    if count == 0 {
        return Err(say(b"usage", b"name a folder of sheets; --help tells more"));
    }
    if count != 1 && is_there(rt, b"--sheet") {
        return Err(say(b"--sheet", b"this option goes with one folder"));
    }
    if count != 1 && is_there(rt, b"--svg") {
        return Err(say(b"--svg", b"this option goes with one folder"));
    }
    Ok(())
}

// The bay that is asked about, if one is.
fn asked_bay(rt: &HostRuntime) -> Result<Option<Bay>, Told> {
    let Some(place) = value_place(rt, b"--why") else {
        return Ok(None);
    };
    if is_there(rt, b"--sheet") {
        return Err(say(
            b"--why",
            b"this option does not go with --sheet, which writes a sheet and nothing else",
        ));
    }
    match bay_at(rt, place) {
        Some(bay) => Ok(Some(bay)),
        None => Err(say(
            b"--why",
            b"name a bay by its row and column from 1, as --why 2,3",
        )),
    }
}

// What is asked of so many folders, unless the words cannot be followed.
pub(crate) fn asked_for(rt: &HostRuntime, count: usize) -> Result<Wish, Told> {
    if let Some(wrong) = first_fault(rt) {
        return Err(say_word(rt, wrong));
    }
    if stands_twice(rt, b"--why") {
        return Err(say(b"--why", b"ask about one bay at a time"));
    }
    if stands_twice(rt, b"--svg") {
        return Err(say(b"--svg", b"name one file"));
    }
    check_folders(rt, count)?;
    Ok(Wish {
        why: asked_bay(rt)?,
        exact: is_there(rt, b"--exact"),
        report: report_of(rt, count),
        several: count != 1,
        svg: value_place(rt, b"--svg"),
    })
}
