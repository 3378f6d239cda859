// The numbers of a system, and its temperature.
use bay_system::Sizes;
use case_fields::{float_field, number_field};

// The sizes, if all could be read.
pub(crate) fn read_sizes(line: &[u8]) -> Option<Sizes> {
    Some(Sizes {
        rows: number_field(line, b"rows")? as usize,
        cols: number_field(line, b"cols")? as usize,
        strands: number_field(line, b"strands")? as usize,
        glues: number_field(line, b"glues")? as usize,
        kelvin: float_field(line, b"kelvin")?,
    })
}
