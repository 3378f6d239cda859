// What the strands' sheet tells, a record of seven fields for each strand but strand 0: names and logarithms.
#![tactic(auto)]

ghost use Rattle.std.specs.Prelude.{◌≡◌, ◌+◌, ◌<◌, length};
ghost use Rattle.std.proofs.lemmas.List.Edits.{sets};
ghost use Rattle.sheet_names.specs.FrontFilled.{FrontFilled};
ghost use Rattle.sheet_strands.specs.Strands.{names_of, logs_of, log_fault};

use sheet_names::{Columns, Laid, put_columns};
use sheet_numbers::{Kind, put_floats};
use text_put::put_text;

// Puts the names of the strands, `null` for strand 0, then the first field of each record, and answers how many bytes they take.
pub fn put_names(
    sheet: &[u8],
    records: usize,
    text: &mut [u8],
    offsets: &mut [usize],
    present: &mut [u8],
) -> usize
    requires records_in_bounds { records + 1 < length offsets.old }
    requires records_in_bounds_2 { records < length present.old }
    ensures { FrontFilled text.old offsets.old present.old 0 (names_of records sheet.now)
        result text.new offsets.new present.new }
{
    let bytes = put_text(text, 0, b"null");
    offsets[0] = 0;
    offsets[1] = bytes;
    present[0] = 1;
    let start = Laid { entries: 1, bytes };
    let names = Columns {
        width: 7,
        from: 0,
        count: 1,
    };
    put_columns(sheet, records, names, text, offsets, present, start).bytes
}

// Puts the logarithms, 0.0 for strand 0, then the second field of each record, and answers the first line whose field is none.
pub fn put_logs(sheet: &[u8], records: usize, logs: &mut [f64]) -> Option<usize>
    requires { records < length logs.old }
    ensures value { result ≡ log_fault records sheet.now }
    ensures logs_after { logs.new ≡ sets logs.old 0 (logs_of records sheet.now) }
{
    logs[0] = 0.0;
    put_floats(sheet, records, 7, 1, Kind::Logarithms, &mut logs[1..])
}
