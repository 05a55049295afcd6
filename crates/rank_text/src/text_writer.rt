//! A text that is written piece by piece, where memory that runs out is noted once.

use limits::Heap;
use std::alloc::AllocError;
use std::fmt::Write;

/// A text. If memory runs out, the rest is left out, and `done` says so.
#[derive(Drop)]
pub struct TextWriter {
    pub text: String<Heap>,
    /// Whether there was memory for all of it.
    pub room: Result<(), AllocError>,
}

impl TextWriter {
    /// An empty text.
    pub fn new(alloc: Heap) -> TextWriter {
        TextWriter {
            text: String::new(alloc),
            room: Ok(()),
        }
    }

    /// A text that begins with this, unless memory ran out for it.
    pub fn begun(begin: Result<String<Heap>, AllocError>, alloc: Heap) -> TextWriter {
        match begin {
            Ok(text) => TextWriter { text, room: Ok(()) },
            Err(error) => TextWriter {
                text: String::new(alloc),
                room: Err(error),
            },
        }
    }

    pub fn text(&mut self, text: &str) {
        if self.room.is_ok() {
            self.room = self.text.push_str(text);
        }
    }

    pub fn sign(&mut self, sign: char) {
        if self.room.is_ok() {
            self.room = self.text.push(sign);
        }
    }

    pub fn number(&mut self, number: u64) {
        if self.room.is_ok() {
            self.room = put_number(&mut self.text, number);
        }
    }

    /// Writes a number between two texts.
    pub fn numbered(&mut self, before: &str, number: u64, behind: &str) {
        self.text(before);
        self.number(number);
        self.text(behind);
    }

    /// Writes a value of a program.
    pub fn integer(&mut self, value: i64) {
        if self.room.is_ok() {
            self.room = put_integer(&mut self.text, value);
        }
    }

    /// Writes a byte as two hexadecimal digits, behind `0x`.
    pub fn byte(&mut self, byte: u8) {
        if self.room.is_ok() {
            self.room = put_byte(&mut self.text, byte);
        }
    }

    /// Writes what is printable of a line, without the spaces before it.
    pub fn printable(&mut self, line: &[u8]) {
        let mut begun = false;
        for byte in line {
            begun |= *byte != b' ';
            if begun && b' ' <= *byte && *byte <= b'~' {
                self.sign(char::from(*byte));
            }
        }
    }

    /// Notes that memory ran out.
    pub fn fail(&mut self, error: AllocError) {
        self.room = Err(error);
    }

    /// The whole text.
    pub fn done(self) -> Result<String<Heap>, AllocError> {
        let TextWriter { text, room } = self;
        match room {
            Ok(()) => Ok(text),
            Err(error) => Err(error),
        }
    }
}

fn put_number(to: &mut String<Heap>, number: u64) -> Result<(), AllocError> {
    write!(to, "{number}")
}

fn put_integer(to: &mut String<Heap>, value: i64) -> Result<(), AllocError> {
    write!(to, "{value}")
}

fn put_byte(to: &mut String<Heap>, byte: u8) -> Result<(), AllocError> {
    write!(to, "{byte:#04x}")
}
