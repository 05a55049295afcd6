//! How each rank ended, and which ranks wait for each other, an object each.

use super::acts::put_sent;
use crate::json::{JsonLines, List, Object};
use crate::trace::circles::circle_from;
use crate::trace::ends::{is_other, line_of, statement_of, waits_for, why_unfinished};
use crate::trace::given::Told;
use audit::End;
use crash_free::Sim;
use limits::Heap;
use matching::Selector;

/// Writes each rank's end.
pub fn put_ends(alloc: Heap, to: &mut JsonLines, told: Told<'_, '_>) {
    for rank in 0..told.run.ranks() {
        if let Some(end) = told.ends.get(usize::from(rank)) {
            let mut object = Object::new(alloc);
            object.number("rank", u64::from(rank));
            put_end(alloc, &mut object, told, rank, *end);
            to.line(object);
        }
    }
}

fn put_end(alloc: Heap, object: &mut Object, told: Told<'_, '_>, rank: u8, end: End) {
    match end {
        End::Halted => object.text("end", "halted"),
        End::Faulted(fault) => {
            object.text("end", "fault");
            object.number("fault", u64::from(fault.number()));
            object.text("name", fault.name());
            put_statement(alloc, object, told, rank);
        }
        End::Stalled => {
            object.text("end", "stalled");
            put_statement(alloc, object, told, rank);
            if let Some(selector) = waits_for(told.run, rank) {
                object.list("unmatched", unmatched(alloc, told, rank, selector));
            }
        }
        End::Unfinished => {
            object.text("end", "unfinished");
            put_statement(alloc, object, told, rank);
            object.text("why", why_unfinished(told.whys, rank));
        }
    }
}

fn put_statement(alloc: Heap, object: &mut Object, told: Told<'_, '_>, rank: u8) {
    if let Some(line) = line_of(told.run, told.lines, rank) {
        object.number("line", line as u64);
        object.made_text("statement", statement_of(alloc, told.text, line));
    }
}

// The messages that are there and that a stalled rank, which waits for such, doesn't wait for.
fn unmatched(alloc: Heap, told: Told<'_, '_>, rank: u8, selector: Selector) -> List {
    let mut list = List::new(alloc);
    for index in 0..told.acts.len() {
        if is_other(told, index, rank, selector) {
            let mut object = Object::new(alloc);
            put_sent(&mut object, told.acts, told.places, index);
            list.object(object);
        }
    }
    list
}

/// Writes each circle of ranks that wait for each other.
pub fn put_circles(alloc: Heap, to: &mut JsonLines, run: &Sim<'_>, ends: &[End]) {
    for rank in 0..run.ranks() {
        if let Some(members) = circle_from(run, ends, rank) {
            let mut list = List::new(alloc);
            let mut number = 0i64;
            for member in &members {
                if *member {
                    list.integer(number);
                }
                number = number.saturating_add(1);
            }
            let mut object = Object::new(alloc);
            object.list("circle", list);
            to.line(object);
        }
    }
}
