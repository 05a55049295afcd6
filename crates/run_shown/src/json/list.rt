//! A list of JSON.

use crate::json::object::Object;
use limits::Heap;
use serde_json::Value;
use std::alloc::AllocError;

/// A list, to which values are added.
#[derive(Drop)]
pub struct List {
    alloc: Heap,
    values: Vec<Value, Heap>,
    room: Result<(), AllocError>,
}

impl List {
    /// A list without values.
    pub fn new(alloc: Heap) -> List {
        List {
            alloc,
            values: Vec::new(alloc),
            room: Ok(()),
        }
    }

    // Adds what was made, if there was memory for it.
    fn push(&mut self, value: Result<Value, AllocError>) {
        match value {
            Ok(value) => self.put(value),
            Err(error) => self.fail(error),
        }
    }

    fn put(&mut self, value: Value) {
        if let Err(_) = self.values.push(value) {
            self.fail(AllocError);
        }
    }

    pub fn integer(&mut self, value: i64) {
        self.put(Value::from(value));
    }

    /// A text, or null for bytes that aren't UTF-8.
    pub fn bytes(&mut self, text: &[u8]) {
        match std::str::from_utf8(text) {
            Ok(text) => self.push(Value::try_from_str(self.alloc, text)),
            Err(_) => self.put(Value::Null),
        }
    }

    pub fn object(&mut self, object: Object) {
        self.push(object.done());
    }

    /// Notes that memory ran out.
    pub fn fail(&mut self, error: AllocError) {
        self.room = Err(error);
    }

    /// The list with its values.
    pub fn done(self) -> Result<Value, AllocError> {
        let List { values, room, .. } = self;
        match room {
            Ok(()) => Ok(Value::Array(values)),
            Err(error) => Err(error),
        }
    }
}
