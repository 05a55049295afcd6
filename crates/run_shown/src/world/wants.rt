//! What a rank's machine wants next.

use crate::json::Object;
use crate::world::frames::put_context;
use limits::Heap;
use matching::Selector;
use rank_machine::Want;

/// What is wanted, with the other rank and the tag that it names.
pub fn want_object(alloc: Heap, want: Want) -> Object {
    let mut object = Object::new(alloc);
    object.text("kind", kind_name(want));
    match want {
        Want::Send { dest, context, tag } => {
            object.number("destination", u64::from(dest));
            put_context(&mut object, context, Some(tag));
        }
        Want::Receive(selector) | Want::Probe(selector) | Want::TryProbe(selector) => put_selector(
            &mut object,
            selector,
        ),
        Want::Print(value) => object.integer("value", value),
        Want::Faulted(fault) => {
            object.number("number", u64::from(fault.number()));
            object.text("name", fault.name());
        }
        Want::Internal | Want::Halted => {}
    }
    object
}

fn kind_name(want: Want) -> &'static str {
    match want {
        Want::Internal => "internal",
        Want::Send { .. } => "send",
        Want::Receive(_) => "receive",
        Want::Probe(_) => "probe",
        Want::TryProbe(_) => "iprobe",
        Want::Print(_) => "print",
        Want::Halted => "halted",
        Want::Faulted(_) => "fault",
    }
}

fn put_selector(object: &mut Object, selector: Selector) {
    if let Some(source) = selector.source {
        object.number("source", u64::from(source));
    }
    put_context(object, selector.context, selector.tag);
}
