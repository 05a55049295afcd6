//! A text of objects of JSON, one a line.

use crate::json::object::Object;
use limits::Heap;
use rank_text::text_writer::TextWriter;
use std::alloc::AllocError;

/// A text, to which objects are added.
#[derive(Drop)]
pub struct JsonLines {
    alloc: Heap,
    text: TextWriter,
}

impl JsonLines {
    /// A text without lines.
    pub fn new(alloc: Heap) -> JsonLines {
        JsonLines {
            alloc,
            text: TextWriter::new(alloc),
        }
    }

    /// Writes the object, and ends the line.
    pub fn line(&mut self, object: Object) {
        match line_of(self.alloc, object) {
            Ok(line) => {
                self.text.text(line.as_str());
                self.text.sign('\n');
            }
            Err(error) => self.text.fail(error),
        }
    }

    /// The whole text.
    pub fn done(self) -> Result<String<Heap>, AllocError> {
        let JsonLines { text, .. } = self;
        text.done()
    }
}

fn line_of(alloc: Heap, object: Object) -> Result<String<Heap>, AllocError> {
    match object.done() {
        Ok(value) => value.to_string(alloc),
        Err(error) => Err(error),
    }
}
