// Why each bay holds what it holds.
use crate::bays::Bay;
use crate::line::Line;
use crate::messages::Told;
use crate::standard::{put_mark, put_strand, write_out};
use crate::task::{Found, Tables};
use name_strands::StrandNames;
use plan_bay_names::tile_at;
use sets::holds;

// Writes a line for each bay.
pub(crate) fn write_reasons(
    folder: &[u8],
    tables: &Tables<'_>,
    found: &Found<'_>,
    sets: &[u64],
) -> Result<(), Told> {
    for (bay, mark) in found.marks.iter().enumerate() {
        write_reason(
            folder,
            &tables.names,
            Bay::numbered(bay, tables.system.sizes.cols),
            tile_at(found.layout, bay),
            *mark,
            set_at(sets, bay),
        )?;
    }
    Ok(())
}

// The set of a bay, empty past the end.
fn set_at(sets: &[u64], bay: usize) -> u64 {
    sets.get(bay).copied().unwrap_or(0)
}

// Writes the line of a bay: its place from 1, what it holds, why, and the strands that are legal there.
fn write_reason(
    folder: &[u8],
    names: &StrandNames<'_>,
    bay: Bay,
    tile: u32,
    mark: u8,
    set: u64,
) -> Result<(), Told> {
    let mut room = [0u8; 36864];
    let mut line = Line::over(&mut room);
    line.put_with(b"bay ", bay.row);
    line.put_with(b",", bay.column);
    line.put(b": ");
    put_strand(&mut line, names, tile);
    line.put(b", ");
    put_mark(&mut line, mark);
    line.put(b"; legal: ");
    put_set(&mut line, names, set);
    line.put(b"\n");
    write_out(folder, line.text())
}

// The strands of a set, by rising number, with a comma before each that is not the first.
fn put_set(line: &mut Line<'_>, names: &StrandNames<'_>, set: u64) {
    let first = line.end;
    for strand in 0..64u32 {
        if holds(set, strand) {
            if line.end != first {
                line.put(b", ");
            }
            put_strand(line, names, strand);
        }
    }
}
