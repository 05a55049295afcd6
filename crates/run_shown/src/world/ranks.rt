//! A rank as it stands.
ghost use Rattle.std.specs.Prelude.{◌<◌, ◌≤◌};
ghost use Rattle.limits.specs.Limits.{most_ranks};
ghost use Rattle.bare_world.specs.World.{size};

use crate::json::{List, Object};
use crate::world::determinants::waiting_object;
use crate::world::frames::{next_object, packet_object};
use crate::world::logs::log_list;
use crate::world::names::Names;
use crate::world::standing::RankAtWork;
use crate::world::wants::want_object;
use checkpoint::{Image, MemoryShelf, Shelf, decode};
use limits::Heap;
use matching::Inbox;
use rank_language::Program;
use rank_machine::Machine;
use rank_node::{Phase, Waiting};
use std::alloc::AllocError;
use world_model::World;

/// What the text of a program says beside it: the names that it declares, and
/// the lines on which its statements stand.
#[derive(Clone, Copy)]
pub struct Known<'a, 't> {
    pub names: &'a Names<'t>,
    pub lines: &'a [usize],
}

/// A rank of the world, whatever it does.
pub fn rank_object(alloc: Heap, known: Known<'_, '_>, world: &World<'_>, rank: u8) -> Object
    requires { rank < size world.now }
{
    let phase = world.phase(rank);
    let mut object = Object::new(alloc);
    object.number("rank", u64::from(rank));
    object.text("phase", phase_name(phase));
    object.number("passed", world.view(rank).acts as u64);
    match RankAtWork::of(alloc, phase) {
        Ok(Some(standing)) => put_standing(alloc, &mut object, known, standing),
        Ok(None) => {}
        Err(error) => object.fail(error),
    }
    if let Phase::Replaying(replaying) = phase {
        object.number("left", u64::from(replaying.left()));
    }
    object.list("next", next_list(alloc, world, rank));
    put_image(alloc, &mut object, world, rank);
    object
}

fn phase_name(phase: &Phase<'_, MemoryShelf, ()>) -> &'static str {
    match phase {
        Phase::Running(_) => "running",
        Phase::Replaying(_) => "replaying",
        Phase::Down(_) => "down",
    }
}

// What a rank at work has: its machine, its inbox, its gate and its payload log.
fn put_standing(
    alloc: Heap,
    object: &mut Object,
    known: Known<'_, '_>,
    standing: RankAtWork<'_, '_>,
) {
    object.number("clock", u64::from(standing.clock));
    object.object("wants", want_object(alloc, standing.machine.wants()));
    put_machine(alloc, object, known, standing.machine);
    object.list("inbox", inbox_list(alloc, standing.inbox));
    let waiting = standing.waiting.as_slice();
    object.list("waiting", waiting_list(alloc, waiting, standing.stored));
    object.list("log", log_list(alloc, standing.log));
}

// Where the machine stands, and what it has stored.
fn put_machine(alloc: Heap, object: &mut Object, known: Known<'_, '_>, machine: &Machine<'_>) {
    if let Some(line) = known.lines.get(machine.position()) {
        object.number("line", *line as u64);
    }
    object.object("variables", variables_object(alloc, known, machine));
    object.object("arrays", arrays_object(alloc, known, machine));
    object.object("status", status_object(alloc, machine));
}

fn variables_object(alloc: Heap, known: Known<'_, '_>, machine: &Machine<'_>) -> Object {
    let mut object = Object::new(alloc);
    let names = known.names;
    let values = machine.variables();
    for index in 0..names.variables.len() {
        if let Some(value) = values.get(index) {
            object.integer(names.variables[index], *value);
        }
    }
    object
}

fn arrays_object(alloc: Heap, known: Known<'_, '_>, machine: &Machine<'_>) -> Object {
    let mut object = Object::new(alloc);
    let names = known.names;
    let arrays = machine.arrays();
    for index in 0..names.arrays.len() {
        if let Some(items) = arrays.get(index) {
            object.integers(names.arrays[index], items.as_slice());
        }
    }
    object
}

fn status_object(alloc: Heap, machine: &Machine<'_>) -> Object {
    let status = machine.status();
    let mut object = Object::new(alloc);
    object.number("source", u64::from(status.source));
    object.number("gottag", u64::from(status.tag));
    object.number("count", u64::from(status.count));
    object
}

fn inbox_list(alloc: Heap, inbox: &Inbox) -> List {
    let mut list = List::new(alloc);
    for packet in inbox.packets() {
        list.object(packet_object(alloc, packet));
    }
    list
}

// What waits, oldest first. The first of these, so many, are stored.
fn waiting_list(alloc: Heap, all: &[Waiting], stored: usize) -> List {
    let mut list = List::new(alloc);
    let mut index = 0usize;
    for waiting in all {
        list.object(waiting_object(alloc, *waiting, index < stored));
        index = index.saturating_add(1);
    }
    list
}

// What goes next to each rank to which something goes.
fn next_list(alloc: Heap, world: &World<'_>, rank: u8) -> List
    requires { rank < size world.now }
{
    let mut list = List::new(alloc);
    for dest in 0..world.ranks() {
        match world.phase(rank).outgoing(dest) {
            Ok(Some(frame)) => list.object(next_object(alloc, dest, &frame)),
            Ok(None) => {}
            Err(_) => list.fail(AllocError),
        }
    }
    list
}

// The image on the rank's shelf, if there is one: its clock, and how many bytes it has.
fn put_image(alloc: Heap, object: &mut Object, world: &World<'_>, rank: u8)
    requires { rank < size world.now }
{
    let shelf = match world.phase(rank).shelf().copy(alloc) {
        Ok(mut shelf) => shelf.get(),
        Err(error) => return object.fail(error),
    };
    match shelf {
        Ok(Some(bytes)) => {
            let (program, size) = (world.program(), world.ranks());
            let image = image_object(alloc, program, rank, size, bytes.as_slice());
            object.object("image", image);
        }
        Ok(None) => {}
        Err(_) => object.fail(AllocError),
    }
}

fn image_object(alloc: Heap, program: &Program, rank: u8, size: u8, bytes: &[u8]) -> Object
    requires rank { rank < size }
    requires size { size ≤ most_ranks }
{
    let mut object = Object::new(alloc);
    object.number("bytes", bytes.len() as u64);
    match decode(alloc, program, rank, size, bytes) {
        Ok(Image { clock, .. }) => object.number("clock", u64::from(clock)),
        Err(_) => object.fail(AllocError),
    }
    object
}
