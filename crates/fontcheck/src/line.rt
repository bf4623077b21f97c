// A line that is put together, and written to standard output.
use failures::tell;
use phrase_put::{bytes_before, put_coded, put_counted, put_decimal, put_named, put_text};

// The bytes of a line, and how many are put. What has no room is left out.
#[derive(Drop)]
pub(crate) struct Line {
    bytes: [u8; 65536],
    at: usize,
}

impl Line {
    // Nothing is put.
    pub(crate) fn new() -> Line {
        Line {
            bytes: [0; 65536],
            at: 0,
        }
    }

    pub(crate) fn text(&mut self, text: &[u8]) {
        self.at = put_text(&mut self.bytes, self.at, text);
    }

    // A number in decimal.
    pub(crate) fn number(&mut self, n: u32) {
        self.at = put_decimal(&mut self.bytes, self.at, n);
    }

    // A text, and then a number in decimal.
    pub(crate) fn counted(&mut self, text: &[u8], n: u32) {
        self.at = put_counted(&mut self.bytes, self.at, text, n);
    }

    // A text, and then a character as itself or by its code.
    pub(crate) fn coded(&mut self, text: &[u8], c: u32) {
        self.at = put_coded(&mut self.bytes, self.at, text, c);
    }

    // A text, and then a character with its code.
    pub(crate) fn named(&mut self, text: &[u8], c: u32) {
        self.at = put_named(&mut self.bytes, self.at, text, c);
    }

    // Writes the part that is put together so far, where little room is left.
    pub(crate) fn make_room(&mut self, rt: &(impl Print + Eprint)) {
        if 60000 <= self.at {
            write_bytes(rt, bytes_before(&self.bytes, self.at));
            self.at = 0;
        }
    }

    // Puts what the line ends with, and writes it.
    pub(crate) fn end(&mut self, rt: &(impl Print + Eprint), text: &[u8]) {
        self.text(text);
        write_bytes(rt, bytes_before(&self.bytes, self.at));
    }
}

// Writes bytes to standard output.
pub(crate) fn write_bytes(rt: &(impl Print + Eprint), bytes: &[u8]) {
    if let Err(error) = rt.write_all(bytes) {
        tell(rt, "fontcheck: standard output can't be written", error);
    }
}
