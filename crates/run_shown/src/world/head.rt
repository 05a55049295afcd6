//! What stands before the events: the texts, and each rank at the beginning.

use crate::json::{JsonLines, List, Object};
use crate::world::ranks::{Known, rank_object};
use limits::Heap;
use rank_text::lines::next_line;
use world_model::World;

/// The number of ranks, and the lines of both texts.
pub fn put_texts(alloc: Heap, to: &mut JsonLines, ranks: u8, program: &[u8], events: &[u8]) {
    let mut object = Object::new(alloc);
    object.number("ranks", u64::from(ranks));
    object.list("program", lines_of(alloc, program));
    object.list("events", lines_of(alloc, events));
    to.line(object);
}

/// Each rank at the beginning, an object a line.
pub fn put_first(alloc: Heap, to: &mut JsonLines, known: Known<'_, '_>, world: &World<'_>) {
    for rank in 0..world.ranks() {
        let mut object = Object::new(alloc);
        object.object("rank", rank_object(alloc, known, world, rank));
        to.line(object);
    }
}

// The lines of a text, in order; null for one that isn't UTF-8.
fn lines_of(alloc: Heap, text: &[u8]) -> List {
    let mut list = List::new(alloc);
    let mut rest = text;
    while let Some((line, more)) = next_line(rest) {
        list.bytes(line);
        rest = more;
    }
    list
}
