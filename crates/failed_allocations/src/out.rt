//! What is printed in the end, and what went wrong.

use limits::Heap;
use std::fmt::{Debug, Display, Write};

/// All that is printed takes less.
const ROOM: usize = 40_000;

/// The text that is printed, until a call was refused its memory twice. The room for it is taken
/// first, so nothing that is put here takes memory.
#[derive(Drop)]
pub struct Out {
    pub alloc: Heap,
    pub text: String<Heap>,
    /// What goes to standard error.
    pub errors: String<Heap>,
    /// A call was refused its memory twice.
    pub lacks: bool,
}

impl Out {
    /// Nothing was put here.
    pub fn new(alloc: Heap) -> Out {
        let mut out = Out {
            alloc,
            text: String::new(alloc),
            errors: String::new(alloc),
            lacks: false,
        };
        out.lacks = !(has_room(&mut out.text) && has_room(&mut out.errors));
        out
    }

    /// A call was refused its memory twice.
    pub fn lack(&mut self) {
        self.lacks = true;
    }

    /// Prints a text.
    pub fn text(&mut self, text: &str) {
        if !self.lacks {
            self.lacks = self.text.push_str(text).is_err();
        }
    }

    /// Prints a value.
    pub fn debug<T: Debug>(&mut self, value: &T) {
        if !self.lacks {
            self.lacks = write!(self.text, "{value:?}").is_err();
        }
    }

    /// Prints the text that a value has.
    pub fn display<T: Display>(&mut self, value: &T) {
        if !self.lacks {
            self.lacks = write!(self.text, "{value}").is_err();
        }
    }

    /// Prints a text, with a number for each `#` in it.
    pub fn form(&mut self, form: &str, numbers: &[u64]) {
        let mut left = numbers;
        for part in form.split('#') {
            self.text(part);
            if let [number, rest @ ..] = left {
                self.display(number);
                left = rest;
            }
        }
    }

    /// Prints a number, if there is one.
    pub fn maybe(&mut self, number: Option<u64>) {
        match number {
            Some(number) => self.form("Some(#)", &[number]),
            None => self.text("None"),
        }
    }

    /// Prints whether it is so.
    pub fn truth(&mut self, is_so: bool) {
        self.text(if is_so { "true" } else { "false" });
    }

    /// Says where a refusal left something else than could be seen before it.
    pub fn compare(&mut self, is_same: bool) {
        if !is_same {
            self.text("a refusal left another value\n");
        }
    }

    /// Says that calls follow which take no memory, and on standard error where
    /// none can be had.
    ///
    /// The program is run with every allocation refused from each of them on. Where
    /// the first that is refused is the one made here, the calls that follow are
    /// made without memory.
    pub fn follow(&mut self, about: &str) {
        self.text("== without memory: ");
        self.text(about);
        self.text("\n");
        if !self.lacks && !can_be_had(self.alloc) {
            self.lacks = write!(self.errors, "== without memory: {about}\n").is_err();
        }
    }
}

fn can_be_had(alloc: Heap) -> bool {
    let room: Result<Vec<u64, Heap>, _> = Vec::with_capacity(alloc, 1);
    room.is_ok()
}

/// Room is taken, once more where it was refused.
fn has_room(text: &mut String<Heap>) -> bool {
    text.reserve(ROOM).is_ok() || text.reserve(ROOM).is_ok()
}
