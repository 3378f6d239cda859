// A text that is put together in a lent room. What does not fit is cut off.
use sheet_names::put_content;
use text_fronts::front;
use text_put::{put_number, put_text};

// A room, and how far it is written.
#[derive(Drop)]
pub(crate) struct Line<'a> {
    pub(crate) room: &'a mut [u8],
    pub(crate) end: usize,
}

impl<'a> Line<'a> {
    // An empty line over a room.
    pub(crate) fn over(room: &'a mut [u8]) -> Line<'a> {
        Line { room, end: 0 }
    }

    // Puts a text.
    pub(crate) fn put(&mut self, text: &[u8]) {
        self.end = put_text(self.room, self.end, text);
    }

    // Puts a text with a number behind it.
    pub(crate) fn put_with(&mut self, text: &[u8], number: usize) {
        self.put(text);
        self.end = put_number(self.room, self.end, number as u64);
    }

    // Puts the content of the field of a sheet that begins at a place; past the sheet's end nothing.
    pub(crate) fn put_content(&mut self, sheet: &[u8], place: usize) {
        if place <= sheet.len() {
            self.end = put_content(sheet, place, self.room, self.end);
        }
    }

    // What was put.
    pub(crate) fn text(&self) -> &[u8] {
        front(self.room, self.end)
    }

    // Whether the room is filled, so that something may be cut off.
    pub(crate) fn is_full(&self) -> bool {
        self.room.len() <= self.end
    }
}
