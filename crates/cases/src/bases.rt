// Registering 128 names of one byte, no two alike and none a star: 25 strands and three bays.
use sdc2d::register;
use text_entries::Names;
use units::Refusal;

// What registering writes into.
#[derive(Clone, Copy, PartialEq, Eq)]
struct Tables {
    glues: [u32; 130],
    scaffold: [u32; 3],
    bases: [usize; 254],
}

// Tables that hold sevens.
fn sevens() -> Tables {
    Tables {
        glues: [7; 130],
        scaffold: [7; 3],
        bases: [7; 254],
    }
}

fn names_into(text: &mut [u8; 128]) {
    for i in 0..128u8 {
        text[usize::from(i)] = 255 - i;
    }
}

fn offsets_into(offsets: &mut [usize; 129]) {
    for (i, offset) in offsets.iter_mut().enumerate() {
        *offset = i;
    }
}

// Registers the names for 26 strands, strand 0 among them, and three bays, with the last name present or absent.
fn registered(last: u8, tables: &mut Tables) -> Result<usize, Refusal> {
    let mut text = [0u8; 128];
    names_into(&mut text);
    let mut offsets = [0usize; 129];
    offsets_into(&mut offsets);
    let mut present = [1u8; 128];
    present[127] = last;
    let names = Names {
        text: &text,
        offsets: &offsets,
        present: &present,
    };
    register(
        1,
        3,
        26,
        &names,
        &mut tables.glues,
        &mut tables.scaffold,
        &mut tables.bases,
    )
}

// Base i has glue 2i + 1, five of them a strand from strand 1 on; strand 0 has none.
fn glues_in_order() -> [u32; 130] {
    let mut glues = [0; 130];
    for i in 0..125u32 {
        glues[5 + i as usize] = 2 * i + 1;
    }
    glues
}

// Base i is the one byte at offset i.
fn bases_in_order() -> [usize; 254] {
    let mut bases = [1; 254];
    for i in 0..127 {
        bases[2 * i] = i;
    }
    bases
}

// 127 bases, the last bay without a glue.
pub(crate) fn the_127th_fits() -> bool {
    let mut tables = sevens();
    registered(0, &mut tables) == Ok(127)
        && tables.glues == glues_in_order()
        && tables.scaffold == [251, 253, 0]
        && tables.bases == bases_in_order()
}

// The 128th base is entry 127, and nothing is written.
pub(crate) fn the_128th_is_refused() -> bool {
    let mut tables = sevens();
    registered(1, &mut tables) == Err(Refusal::TooManyBases(127)) && tables == sevens()
}
