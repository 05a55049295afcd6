//! Packets and frames.

use crate::json::Object;
use limits::Heap;
use matching::{Context, Packet};
use rank_node::Frame;

/// A packet: its envelope and its items.
pub fn packet_object(alloc: Heap, packet: &Packet) -> Object {
    let mut object = Object::new(alloc);
    object.number("source", u64::from(packet.source));
    object.number("clock", u64::from(packet.clock));
    object.number("number", u64::from(packet.number));
    put_context(&mut object, packet.context, Some(packet.tag));
    object.integers("items", packet.payload.as_slice());
    object
}

/// A frame that was put on the wire from one rank to another with this index.
pub fn frame_object(alloc: Heap, source: u8, dest: u8, index: usize, frame: &Frame) -> Object {
    let mut object = Object::new(alloc);
    object.number("source", u64::from(source));
    object.number("destination", u64::from(dest));
    object.number("index", index as u64);
    match frame {
        Frame::Data(packet) => object.object("packet", packet_object(alloc, packet)),
        Frame::Ask { from } => object.number("ask", u64::from(from.number())),
        Frame::Kept { upto } => object.number("kept", u64::from(upto.number())),
    }
    object
}

/// What goes next to a rank, by its number.
pub fn next_object(alloc: Heap, dest: u8, frame: &Frame) -> Object {
    let mut object = Object::new(alloc);
    object.number("destination", u64::from(dest));
    match frame {
        Frame::Data(packet) => object.number("packet", u64::from(packet.number)),
        Frame::Ask { from } => object.number("ask", u64::from(from.number())),
        Frame::Kept { upto } => object.number("kept", u64::from(upto.number())),
    }
    object
}

/// The tag, if there is one, of what is no part of a collective.
pub fn put_context(object: &mut Object, context: Context, tag: Option<u16>) {
    match (context, tag) {
        (Context::PointToPoint, Some(tag)) => object.number("tag", u64::from(tag)),
        (Context::PointToPoint, None) => {}
        (Context::Collective, _) => object.flag("collective", true),
    }
}
