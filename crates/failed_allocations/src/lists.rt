//! Lists of events of worlds.

use crate::again::{program_of, push};
use crate::out::Out;
use crate::rows::Row;
use crate::worlds::{apply, show_lines, world_of};
use limits::Heap;
use rank_language::Program;
use world_model::{Reply, Stopped, World, WorldEvent};

/// The events of a row go last in a list, one after another. Answers whether there was memory.
fn list(events: &mut Vec<WorldEvent, Heap>, row: &Row) -> bool {
    let mut is_listed = true;
    for one in row.events {
        let (times, event) = *one;
        for _ in 0..times {
            is_listed = push(events, event) && is_listed;
        }
    }
    is_listed
}

/// The replies to events that are made one by one go last in a list.
fn reply(
    out: &mut Out,
    world: &mut World<'_>,
    events: &[WorldEvent],
    replies: &mut Vec<Reply, Heap>,
) {
    for event in events {
        let reply = apply(out, world, *event);
        if !push(replies, reply) {
            out.lack();
        }
    }
}

/// Makes a list of events, and where that stops when out of memory the rest of
/// it. Answers whether the replies are the last ones of these.
fn run(out: &mut Out, world: &mut World<'_>, events: &[WorldEvent], want: &[Reply]) -> bool {
    let done = match world.run(out.alloc, events) {
        Ok(replies) => return replies.as_slice() == want,
        Err(Stopped { done }) => done,
    };
    match world.run(out.alloc, &events[done..]) {
        Ok(replies) => Some(replies.as_slice()) == want.get(done..),
        Err(_) => {
            out.lack();
            false
        }
    }
}

/// Plays events as one list, and before in a world of its own one by one.
fn compare(out: &mut Out, program: &Program, ranks: u8, events: &[WorldEvent]) {
    let mut want = Vec::new(out.alloc);
    match world_of(out.alloc, program, ranks) {
        Ok(mut world) => {
            reply(out, &mut world, events, &mut want);
            world.close();
        }
        Err(_) => out.lack(),
    }
    match world_of(out.alloc, program, ranks) {
        Ok(mut world) => {
            let same = run(out, &mut world, events, want.as_slice());
            show_lines(out, &world);
            world.close();
            out.form("# events, answered alike: ", &[events.len() as u64]);
            out.truth(same);
            out.text("\n");
        }
        Err(_) => out.lack(),
    }
}

fn play(out: &mut Out, row: &Row) {
    out.text("== ");
    out.text(row.about);
    out.text(", as one list\n");
    let mut events = Vec::new(out.alloc);
    if !list(&mut events, row) {
        out.lack();
    }
    match program_of(out.alloc, row.program) {
        Some(program) => compare(out, &program, row.ranks, events.as_slice()),
        None => out.lack(),
    }
}

/// Plays each row as one list.
pub fn play_all(out: &mut Out, rows: &[Row]) {
    for row in rows {
        play(out, row);
    }
}
