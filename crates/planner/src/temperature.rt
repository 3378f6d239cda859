// The temperature.
use crate::messages::{Told, begin, finish, say_field};
use crate::shapes::{Form, records_of};
use sheet_fields::Place;
use sheet_numbers::{Kind, put_floats};
use units::in_kelvin_range;

// Reads the temperature.
pub(crate) fn read_temperature(folder: &[u8], sheet: &[u8]) -> Result<f64, Told> {
    records_of(
        folder,
        sheet,
        1,
        1,
        &Form {
            sheet: b"temperature.csv",
            refusal: b"",
            many: b"there is one temperature, in one line",
            record: b"the temperature is one decimal, in kelvin",
        },
    )?;
    let mut kelvin = [0.0f64];
    if put_floats(sheet, 1, 1, 0, Kind::Decimals, &mut kelvin).is_some() {
        return Err(say_field(
            folder,
            b"temperature.csv",
            Place { line: 1, field: 1 },
            b"the temperature is one decimal in kelvin, as 310.15 for 37 degrees Celsius, with at most 15 digits and 22 places",
        ));
    }
    if !in_kelvin_range(kelvin[0]) {
        return Err(say_temperature(folder, sheet));
    }
    Ok(kelvin[0])
}

// Says that a temperature is out of range.
fn say_temperature(folder: &[u8], sheet: &[u8]) -> Told {
    let mut room = [0u8; 8192];
    let mut line = begin(&mut room, folder);
    line.put(b"refusal 1: temperature.csv: ");
    line.put_content(sheet, 0);
    finish(
        &mut line,
        b" is not from 200 to 500 kelvin; 37 degrees Celsius are 310.15 kelvin",
    )
}
