// One bay, strand by strand: which rule forbids it there, or the least energy of a layout that has it there.
use crate::bays::Bay;
use crate::line::Line;
use crate::messages::{Told, put_bay};
use crate::refusals::say_tables;
use crate::standard::{put_kcal, put_strand, write_out};
use crate::task::{Ledger, Tables, Task};
use text_fronts::front;
use units::Refusal;

// Writes what is to be said of the bay that is asked about.
pub(crate) fn write_why(
    task: &Task<'_>,
    tables: &Tables<'_>,
    asked: Bay,
    ledger: &mut Ledger<'_>,
) -> Result<(), Told> {
    let sizes = tables.system.sizes;
    let bay = asked.number(sizes.cols);
    let mut rules = [4u8; 64];
    if let Err(refusal) = tables.rule(bay, &mut rules) {
        return Err(say_tables(task.folder, refusal));
    }
    write_head(task.folder, bay, sizes.cols)?;
    for (strand, rule) in front(&rules, sizes.strands).iter().enumerate() {
        write_strand(task, tables, bay, strand, *rule, ledger)?;
    }
    Ok(())
}

// Writes which bay the lines are about.
fn write_head(folder: &[u8], bay: usize, cols: usize) -> Result<(), Told> {
    let mut room = [0u8; 256];
    let mut line = Line::over(&mut room);
    line.put(b"\nbay ");
    put_bay(&mut line, bay, cols);
    line.put(b", strand by strand, with the least energy of a layout that has it there:\n");
    write_out(folder, line.text())
}

// Writes the line of a strand: the rule that forbids it, a byte of a lent table, or its price.
fn write_strand(
    task: &Task<'_>,
    tables: &Tables<'_>,
    bay: usize,
    number: usize,
    rule: u8,
    ledger: &mut Ledger<'_>,
) -> Result<(), Told> {
    let strand = tile_of(number);
    let mut room = [0u8; 20480];
    let mut line = Line::over(&mut room);
    line.put_with(b"  strand ", number);
    line.put(b", ");
    put_strand(&mut line, &tables.names, strand);
    line.put(b": ");
    match rule {
        0 => put_price(
            &mut line,
            task.wish.exact,
            price_of(tables, bay, strand, ledger),
        ),
        1 => line.put(b"forbidden, another strand is seeded there"),
        2 => line.put(b"forbidden, it does not bind the bay's glue"),
        _ => line.put(b"forbidden, the bay's list does not name it"),
    }
    line.put(b"\n");
    write_out(task.folder, line.text())
}

// A strand's number, which is below 64.
fn tile_of(number: usize) -> u32 {
    if number < 64 { number as u32 } else { 64 }
}

// The least energy with a strand at a bay.
fn price_of(
    tables: &Tables<'_>,
    bay: usize,
    strand: u32,
    ledger: &mut Ledger<'_>,
) -> Result<f64, Refusal> {
    let mut layout = [0u32; 1024];
    tables.price(bay, strand, &mut layout, ledger)
}

// The least energy of a choice.
fn put_price(line: &mut Line<'_>, exact: bool, price: Result<f64, Refusal>) {
    line.put(b"legal, ");
    match price {
        Ok(energy) => put_kcal(line, exact, energy),
        Err(refusal) => line.put_with(b"refusal ", refusal.number() as usize),
    }
}
