// Standard output, and the texts that several reports share.
use crate::line::Line;
use crate::messages::{Told, say};
use name_strands::StrandNames;
use plan_bay_names::name_of;
use text_energy::put_energy;
use text_put::put_float;

// Writes a text to standard output.
pub(crate) fn write_out(folder: &[u8], text: &[u8]) -> Result<(), Told> {
    if io::write_all(1, text) {
        return Ok(());
    }
    Err(say(folder, b"standard output cannot be written"))
}

// An energy with two decimals; an infinite one is `inf`, as a logarithm may be.
fn put_finite(line: &mut Line<'_>, energy: f64) {
    if units::is_finite(energy) {
        line.end = put_energy(line.room, line.end, energy);
    } else {
        line.put(b"inf");
    }
}

// An energy in kcal/mol, and its bits where they are asked for: `exact` is the option of that name.
pub(crate) fn put_kcal(line: &mut Line<'_>, exact: bool, energy: f64) {
    put_finite(line, energy);
    line.put(b" kcal/mol");
    if exact {
        line.put(b", bits ");
        line.end = put_float(line.room, line.end, energy);
    }
}

// What a strand is called.
pub(crate) fn put_strand(line: &mut Line<'_>, names: &StrandNames<'_>, strand: u32) {
    if strand == 0 {
        line.put(b"empty");
    } else {
        line.put(name_of(names, strand));
    }
}

// The reason of a bay, by its mark, which is a byte of a lent table.
pub(crate) fn put_mark(line: &mut Line<'_>, mark: u8) {
    line.put(match mark {
        1 => b"restricted by a list",
        2 => b"seeded",
        3 => b"kept empty by a list of 0",
        _ => b"free",
    });
}
