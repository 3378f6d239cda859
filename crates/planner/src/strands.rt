// The names of the strands and their logarithms.
ghost use Rattle.std.specs.Prelude.{◌≤◌};

use crate::messages::{Told, say, say_field};
use sheet_fields::Place;
use sheet_strands::{put_logs, put_names};

// Reads the names, and answers where their text ends.
pub(crate) fn read_names(
    folder: &[u8],
    sheet: &[u8],
    records: usize,
    text: &mut [u8],
    offsets: &mut [usize; 65],
    present: &mut [u8; 64],
) -> Result<usize, Told>
    requires { records ≤ 63 }
{
    let end = put_names(sheet, records, text, offsets, present);
    if 16384 < end {
        return Err(say(
            folder,
            b"refusal 1: strands.csv: the names of the strands take more than 16384 bytes; shorten them",
        ));
    }
    Ok(end)
}

// Reads the logarithms.
pub(crate) fn read_logs(
    folder: &[u8],
    sheet: &[u8],
    records: usize,
    logs: &mut [f64; 64],
) -> Result<(), Told>
    requires { records ≤ 63 }
{
    if let Some(line) = put_logs(sheet, records, logs) {
        return Err(say_field(
            folder,
            b"strands.csv",
            Place { line, field: 2 },
            b"the logarithm of a concentration is -inf or a decimal such as -13.8, with at most 15 digits and 22 places, no exponent and no 0 in front",
        ));
    }
    Ok(())
}
