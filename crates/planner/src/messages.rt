// Sentences on standard error. Each begins with the folder that it is about and ends its line.
use crate::bays::Bay;
use crate::line::Line;
use sheet_fields::Place;

// What was not done, since a sentence on standard error says why.
#[derive(Clone, Copy)]
pub(crate) struct Told;

// Begins a sentence about a folder.
pub(crate) fn begin<'a>(room: &'a mut [u8], folder: &[u8]) -> Line<'a> {
    let mut line = Line::over(room);
    line.put(b"planner: ");
    line.put(folder);
    line.put(b": ");
    line
}

// Writes a sentence with its end.
pub(crate) fn finish(line: &mut Line<'_>, rest: &[u8]) -> Told {
    line.put(rest);
    line.put(b"\n");
    io::write_all(2, line.text());
    Told
}

// Writes a sentence about a sheet that is no text, by the place of its first byte that is no part of one.
pub(crate) fn finish_stray(line: &mut Line<'_>, place: usize) -> Told {
    line.put_with(b" is no text: the byte at place ", place);
    finish(
        line,
        b", counted from 0, is no part of UTF-8 text without control characters; save the sheet as comma-separated values",
    )
}

// Writes a sentence that is one text.
pub(crate) fn say(folder: &[u8], text: &[u8]) -> Told {
    let mut room = [0u8; 8192];
    let mut line = begin(&mut room, folder);
    finish(&mut line, text)
}

// Begins a sentence about a file.
pub(crate) fn begin_file<'a>(room: &'a mut [u8], folder: &[u8], file: &[u8]) -> Line<'a> {
    let mut line = begin(room, folder);
    line.put(file);
    line
}

// Writes a sentence about a file. There is room for two paths, the folder's and the file's.
pub(crate) fn say_file(folder: &[u8], file: &[u8], text: &[u8]) -> Told {
    let mut room = [0u8; 12288];
    let mut line = begin_file(&mut room, folder, file);
    finish(&mut line, text)
}

// Puts a row and a column, from 1, and the bay as the rules count it.
pub(crate) fn put_bay(line: &mut Line<'_>, bay: usize, cols: usize) {
    let place = Bay::numbered(bay, cols);
    line.put_with(b"row ", place.row);
    line.put_with(b", column ", place.column);
    line.put_with(b" (bay ", bay);
    line.put(b" counted from 0)");
}

// Puts a sheet's line and field, both from 1.
pub(crate) fn put_field(line: &mut Line<'_>, sheet: &[u8], place: Place) {
    line.put(sheet);
    line.put_with(b", line ", place.line);
    line.put_with(b", field ", place.field);
    line.put(b": ");
}

// Writes a sentence about a field of a sheet.
pub(crate) fn say_field(folder: &[u8], sheet: &[u8], place: Place, text: &[u8]) -> Told {
    let mut room = [0u8; 8192];
    let mut line = begin(&mut room, folder);
    put_field(&mut line, sheet, place);
    finish(&mut line, text)
}
