//! Events of worlds.

use crate::again::program_of;
use crate::out::Out;
use crate::rows::Row;
use limits::{Heap, MOST_RANKS};
use rank_language::Program;
use std::alloc::AllocError;
use world_model::events_text::ReplyLine;
use world_model::{Reply, View, World, WorldEvent};

/// What can be seen of a world: its first and its last rank, and how many lines
/// were shown.
type Seen = (View, View, usize);

fn look(world: &World<'_>) -> Option<Seen> {
    let last = world.ranks().checked_sub(1)?;
    Some((world.view(0), world.view(last), world.lines().len()))
}

/// A world of a program's ranks, of which there are at most `MOST_RANKS`.
pub fn world_of<'p>(alloc: Heap, program: &'p Program, ranks: u8) -> Result<World<'p>, AllocError> {
    if usize::from(ranks) > MOST_RANKS {
        return Err(AllocError);
    }
    match World::new(alloc, program, ranks) {
        Ok(world) => Ok(world),
        Err(_) => World::new(alloc, program, ranks),
    }
}

/// One event, once more where it was refused its memory.
pub fn apply(out: &mut Out, world: &mut World<'_>, event: WorldEvent) -> Reply {
    let before = look(world);
    match world.apply(event) {
        Ok(reply) => reply,
        Err(_) => {
            out.compare(before == look(world));
            apply_again(out, world, event)
        }
    }
}

fn apply_again(out: &mut Out, world: &mut World<'_>, event: WorldEvent) -> Reply {
    match world.apply(event) {
        Ok(reply) => reply,
        Err(_) => {
            out.lack();
            Reply::Refused
        }
    }
}

/// An event so often, and how often it was answered as it was at last.
fn apply_each(out: &mut Out, world: &mut World<'_>, times: u32, event: WorldEvent) {
    let mut last = Reply::Refused;
    let mut same = 0u64;
    for _ in 0..times {
        let reply = apply(out, world, event);
        same = if reply == last {
            same.saturating_add(1)
        } else {
            1
        };
        last = reply;
    }
    out.form("# of # ", &[same, u64::from(times)]);
    out.debug(&event);
    out.text(": ");
    out.display(&ReplyLine(last));
    out.text("\n");
    show(out, world);
}

fn show(out: &mut Out, world: &World<'_>) {
    if let Some((first, last, lines)) = look(world) {
        out.text("  ");
        out.debug(&first);
        out.text(", ");
        out.debug(&last);
        out.form(", lines #\n", &[lines as u64]);
    }
}

/// The lines of a world.
pub fn show_lines(out: &mut Out, world: &World<'_>) {
    for line in world.lines() {
        out.form("#> ", &[u64::from(line.rank)]);
        out.debug(&line.value);
        out.text("\n");
    }
}

fn apply_all(out: &mut Out, world: &mut World<'_>, row: &Row) {
    for one in row.events {
        let (times, event) = *one;
        apply_each(out, world, times, event);
    }
    out.follow("what is shown of a world");
    show(out, world);
    show_lines(out, world);
}

fn play(out: &mut Out, row: &Row) {
    out.text("== ");
    out.text(row.about);
    out.text("\n");
    let Some(program) = program_of(out.alloc, row.program) else {
        out.lack();
        return;
    };
    match world_of(out.alloc, &program, row.ranks) {
        Ok(mut world) => {
            apply_all(out, &mut world, row);
            world.close();
        }
        Err(_) => out.lack(),
    }
}

/// Plays each row, event by event.
pub fn play_all(out: &mut Out, rows: &[Row]) {
    for row in rows {
        play(out, row);
    }
}
