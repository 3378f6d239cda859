// Energy keys: from their sheet to the two matrices.
ghost use Rattle.std.specs.Prelude.{◌≤◌};

use crate::glues::Glues;
use crate::messages::{Told, say_field};
use crate::refusals::say_keys;
use crate::shapes::{Form, records_of};
use name_energy_keys::energy_keys;
use name_key_values::KeyValues;
use name_keys::KeyNames;
use sheet_keys::{check_keys, put_keys};
use text_entries::Entries;
use text_fronts::front;
use units::Refusal;

// Reads the keys, and fills the matrices from them. The tables stay parameters, as those of `register`.
pub(crate) fn fill_matrices(
    folder: &[u8],
    sheet: &[u8],
    glues: &Glues,
    bases: &[usize],
    text: &mut [u8],
    delta_g: &mut [f64],
    entropy: &mut [f64],
) -> Result<(), Told> {
    let records = records_of(
        folder,
        sheet,
        5,
        2048,
        &Form {
            sheet: b"energies.csv",
            refusal: b"",
            many: b"there are more than 2048 energy keys, the planner's room; use the library",
            record: b"an energy key has 5 fields: a name, a second name or nothing, and either the two numbers or, in the last field, a sequence; quotes stand around a whole field",
        },
    )?;
    if let Err(place) = check_keys(sheet, records) {
        return Err(say_field(
            folder,
            b"energies.csv",
            place,
            b"a key has a name in field 1, and either two decimals such as -4.2 in fields 3 and 4 or a sequence in field 5 and nothing in those two; a decimal has at most 15 digits and 22 places, no exponent and no 0 in front",
        ));
    }
    match matrices_of(sheet, records, glues, bases, text, delta_g, entropy) {
        Ok(()) => Ok(()),
        Err(refusal) => Err(say_keys(folder, refusal, sheet, records)),
    }
}

// Names of keys by their entries, and the bases that are registered.
fn key_names<'a>(
    text: &'a [u8],
    offsets: &'a [usize],
    paired: &'a [u8],
    bases: &'a [usize],
    count: usize,
) -> KeyNames<'a> {
    let names = Entries { text, offsets };
    KeyNames {
        names,
        paired,
        bases,
        count,
    }
}

// Values of keys, the sequences by their entries.
fn key_values<'a>(
    kinds: &'a [u8],
    numbers: &'a [f64],
    text: &'a [u8],
    offsets: &'a [usize],
) -> KeyValues<'a> {
    let sequences = Entries { text, offsets };
    KeyValues {
        kinds,
        numbers,
        sequences,
    }
}

// Fills as much of the matrices as the glues ask for, from tables that have room for 2048 keys. Its tables stay parameters for the same reason.
fn matrices_of(
    sheet: &[u8],
    records: usize,
    glues: &Glues,
    bases: &[usize],
    text: &mut [u8],
    delta_g: &mut [f64],
    entropy: &mut [f64],
) -> Result<(), Refusal>
    requires { records ≤ 2048 }
{
    let pairs = glues.pairs();
    if text.len() < glues.end || delta_g.len() < pairs || entropy.len() < pairs {
        return Err(Refusal::Size);
    }
    let mut offsets = [0usize; 4097];
    let mut present = [0u8; 4096];
    let mut paired = [0u8; 2048];
    let mut kinds = [0u8; 2048];
    let mut numbers = [0.0f64; 4096];
    let mut sequences = [0u8; 131072];
    let mut sequence_offsets = [0usize; 2049];
    let texts = put_keys(
        sheet,
        records,
        text,
        glues.end,
        &mut offsets,
        &mut present,
        &mut paired,
        &mut kinds,
        &mut numbers,
        &mut sequences,
        &mut sequence_offsets,
    );
    energy_keys(
        &key_names(
            front(text, texts.names),
            front(&offsets, 2 * records + 1),
            front(&paired, records),
            bases,
            glues.bases,
        ),
        &key_values(
            front(&kinds, records),
            front(&numbers, 2 * records),
            front(&sequences, texts.sequences),
            front(&sequence_offsets, records + 1),
        ),
        &mut delta_g[..pairs],
        &mut entropy[..pairs],
    )
}
