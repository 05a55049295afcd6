//! An object of JSON.

use crate::json::list::List;
use limits::Heap;
use serde_json::{Map, Value, put};
use std::alloc::AllocError;

/// An object, to which members are added.
#[derive(Drop)]
pub struct Object {
    alloc: Heap,
    members: Map<String<Heap>, Value>,
    room: Result<(), AllocError>,
}

impl Object {
    /// An object without members.
    pub fn new(alloc: Heap) -> Object {
        Object {
            alloc,
            members: Map::new(alloc),
            room: Ok(()),
        }
    }

    fn put(&mut self, name: &str, value: Value) {
        if let Err(error) = put(&mut self.members, self.alloc, name, value) {
            self.fail(error);
        }
    }

    // Adds what was made, if there was memory for it.
    fn put_made(&mut self, name: &str, value: Result<Value, AllocError>) {
        match value {
            Ok(value) => self.put(name, value),
            Err(error) => self.fail(error),
        }
    }

    pub fn number(&mut self, name: &str, number: u64) {
        self.put(name, Value::from(number));
    }

    pub fn flag(&mut self, name: &str, holds: bool) {
        self.put(name, Value::from(holds));
    }

    /// A value of the program.
    pub fn integer(&mut self, name: &str, value: i64) {
        self.put(name, Value::from(value));
    }

    pub fn text(&mut self, name: &str, text: &str) {
        self.put_made(name, Value::try_from_str(self.alloc, text));
    }

    /// A text that was made for this, if there was memory for it.
    pub fn made_text(&mut self, name: &str, text: Result<String<Heap>, AllocError>) {
        match text {
            Ok(text) => self.put(name, Value::String(text)),
            Err(error) => self.fail(error),
        }
    }

    /// Values of the program.
    pub fn integers(&mut self, name: &str, values: &[i64]) {
        let mut list = List::new(self.alloc);
        for value in values {
            list.integer(*value);
        }
        self.list(name, list);
    }

    pub fn list(&mut self, name: &str, list: List) {
        self.put_made(name, list.done());
    }

    /// An object within this one.
    pub fn object(&mut self, name: &str, object: Object) {
        self.put_made(name, object.done());
    }

    /// Notes that memory ran out.
    pub fn fail(&mut self, error: AllocError) {
        self.room = Err(error);
    }

    /// The object with its members.
    pub fn done(self) -> Result<Value, AllocError> {
        let Object { members, room, .. } = self;
        match room {
            Ok(()) => Ok(Value::Object(members)),
            Err(error) => Err(error),
        }
    }
}
