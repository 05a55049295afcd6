//! A world's events, one after another, an object a line.
ghost use Rattle.std.specs.Prelude.{◌<◌, ◌≤◌, IfSome};
ghost use Rattle.limits.specs.Limits.{most_ranks};
ghost use Rattle.bare_world.specs.World.{size};

use crate::json::{JsonLines, List, Object};
use crate::world::acts::{Outlook, act_object, outlook_of};
use crate::world::determinants::determinant_object;
use crate::world::frames::frame_object;
use crate::world::head::{put_first, put_texts};
use crate::world::names::names_of;
use crate::world::parts::parts_object;
use crate::world::ranks::{Known, rank_object};
use limits::Heap;
use matching::Line;
use rank_language::{Program, statement_lines};
use std::alloc::AllocError;
use world_model::events_text::{EventLine, ReplyLine};
use world_model::{Reply, World, WorldEvent};

/// The texts of a program and of events, as they are in their files.
#[derive(Clone, Copy)]
pub struct WorldTexts<'a> {
    pub program: &'a [u8],
    pub events: &'a [u8],
}

/// A new world of so many ranks under these events, an object a line: both
/// texts, each rank at the beginning, and each event with its reply and what it
/// changed. `texts` are those of the program and of the events. An `Err` means
/// out of memory.
pub fn world_json(
    alloc: Heap,
    program: &Program,
    ranks: u8,
    events: &[WorldEvent],
    texts: WorldTexts<'_>,
) -> Result<String<Heap>, AllocError>
    requires { ranks ≤ most_ranks }
{
    let names = names_of(alloc, texts.program)?;
    let lines = statement_lines(alloc, texts.program)?;
    let known = Known {
        names: &names,
        lines: lines.as_slice(),
    };
    let mut world = World::new(alloc, program, ranks)?;
    let text = played(alloc, &mut world, known, events, texts);
    world.close();
    text
}

fn played(
    alloc: Heap,
    world: &mut World<'_>,
    known: Known<'_, '_>,
    events: &[WorldEvent],
    texts: WorldTexts<'_>,
) -> Result<String<Heap>, AllocError> {
    let lines = statement_lines(alloc, texts.events)?;
    let mut to = JsonLines::new(alloc);
    put_texts(alloc, &mut to, world.ranks(), texts.program, texts.events);
    put_first(alloc, &mut to, known, world);
    for index in 0..events.len() {
        let mut object = Object::new(alloc);
        object.number("event", index as u64 + 1);
        if let Some(line) = lines.get(index) {
            object.number("line", *line as u64);
        }
        put_played(alloc, &mut object, known, world, events[index]);
        to.line(object);
    }
    to.done()
}

// Gives the world an event, and says what came of it.
fn put_played(
    alloc: Heap,
    object: &mut Object,
    known: Known<'_, '_>,
    world: &mut World<'_>,
    event: WorldEvent,
) {
    let shown = world.lines().len();
    let outlook = stepping(world, event);
    match world.apply(event) {
        Ok(reply) => {
            put_event(alloc, object, event, reply);
            put_changes(alloc, object, known, world, event, reply);
            put_act(alloc, object, world, event, reply, outlook);
            put_lines(alloc, object, world.lines().get(shown..).unwrap_or(&[]));
        }
        Err(error) => object.fail(error),
    }
}

// What the rank does with its next step, if the event is a step of it.
fn stepping(world: &World<'_>, event: WorldEvent) -> Option<Outlook> {
    let WorldEvent::Step { rank } = event else {
        return None;
    };
    outlook_of(world, rank_of(world, rank)?)
}

// The event in words and by its parts, and its reply.
fn put_event(alloc: Heap, object: &mut Object, event: WorldEvent, reply: Reply) {
    object.object("parts", parts_object(alloc, event));
    let event = EventLine(event);
    object.made_text("text", format!(in alloc; "{event}"));
    let reply = ReplyLine(reply);
    object.made_text("reply", format!(in alloc; "{reply}"));
}

// What the event changed: its rank, its row at the logger, a wire.
fn put_changes(
    alloc: Heap,
    object: &mut Object,
    known: Known<'_, '_>,
    world: &World<'_>,
    event: WorldEvent,
    reply: Reply,
) {
    let Some(rank) = rank_of(world, changed_by(event)) else {
        return;
    };
    if reply == Reply::Refused {
        return;
    }
    object.object("rank", rank_object(alloc, known, world, rank));
    if let (Reply::Stored(_), Some(event)) = (reply, world.row(rank).last()) {
        object.object("stored", determinant_object(alloc, *event));
    }
    if let WorldEvent::Put { dest, .. } = event {
        put_frame(alloc, object, world, rank, dest);
    }
}

// The act that a step made, if it made one.
fn put_act(
    alloc: Heap,
    object: &mut Object,
    world: &World<'_>,
    event: WorldEvent,
    reply: Reply,
    outlook: Option<Outlook>,
) {
    let (Reply::Moved, Some(outlook)) = (reply, outlook) else {
        return;
    };
    if !outlook.want.is_act() {
        return;
    }
    if let Some(rank) = rank_of(world, changed_by(event)) {
        object.object("act", act_object(alloc, world, rank, outlook));
    }
}

// Of which rank the event is: the only one that it may change.
fn changed_by(event: WorldEvent) -> u32 {
    match event {
        WorldEvent::Step { rank } | WorldEvent::Store { rank } | WorldEvent::Ack { rank } => rank,
        WorldEvent::Image { rank } | WorldEvent::Crash { rank } => rank,
        WorldEvent::Restart { rank } | WorldEvent::Release { rank } => rank,
        WorldEvent::Put { source, dest: _ } => source,
        WorldEvent::Arrive {
            source: _,
            dest,
            index: _,
        } => dest,
    }
}

// The rank of this number, if there is one.
fn rank_of(world: &World<'_>, number: u32) -> Option<u8>
    ensures { IfSome result (λ rank. rank < size world.now) }
{
    match u8::try_from(number) {
        Ok(rank) if rank < world.ranks() => Some(rank),
        Ok(_) | Err(_) => None,
    }
}

// The frame that was put last on the wire from one rank to another.
fn put_frame(alloc: Heap, object: &mut Object, world: &World<'_>, source: u8, dest: u32)
    requires { source < size world.now }
{
    let Some(dest) = rank_of(world, dest) else {
        return;
    };
    let frames = world.frames(source, dest);
    if let Some(frame) = frames.last() {
        let index = frames.len() - 1;
        object.object("frame", frame_object(alloc, source, dest, index, frame));
    }
}

// The lines that were shown, if there are some.
fn put_lines(alloc: Heap, object: &mut Object, lines: &[Line]) {
    if lines.is_empty() {
        return;
    }
    let mut list = List::new(alloc);
    for line in lines {
        let mut one = Object::new(alloc);
        one.number("rank", u64::from(line.rank));
        one.number("clock", u64::from(line.clock));
        one.integer("value", line.value);
        list.object(one);
    }
    object.list("lines", list);
}
