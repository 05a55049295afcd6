//! The events of a run, with the kills and the images of its script among them.
//!
//! A rank that crashes starts again at once. What the plan has for it since its
//! image comes once more, in the same order: its steps, and the packets, which
//! their senders transmit again. So it finds what it found before, also where
//! what it found wasn't stored, and stands where the plan goes on.
ghost use Rattle.std.specs.Prelude.{◌≤◌};
ghost use Rattle.limits.specs.Limits.{most_ranks};

use crate::course::Course;
use crate::fault::PlayFault;
use crate::looks::{clock_of, is_running, misses_only};
use limits::{Heap, MOST_SCRIPT_LINES};
use rank_language::Program;
use rank_text::script::{Order, ScriptLine};
use world_model::{World, WorldEvent};

/// Events that are to play a run of the program on so many ranks with the lines
/// of the script that it used. `plan` has events that play the run without them,
/// each reception, hit or run of misses stored and acknowledged before the next
/// act of its rank.
///
/// Nothing is promised of them here: whoever asks for them plays them first.
pub fn revived(
    alloc: Heap,
    program: &Program,
    ranks: u8,
    plan: &[WorldEvent],
    script: &[ScriptLine],
    unused: &[usize],
) -> Result<Vec<WorldEvent, Heap>, PlayFault>
    requires { ranks ≤ most_ranks }
{
    let mut course = Course::new(alloc, ranks, script, unused)?;
    let mut world = World::new(alloc, program, ranks)?;
    follow(&mut course, &mut world, plan);
    world.close();
    course.into_events()
}

// The world is led along the plan.
fn follow(course: &mut Course, world: &mut World<'_>, plan: &[WorldEvent]) {
    for place in 0..plan.len() {
        if !course.goes_on() {
            return;
        }
        match plan[place] {
            WorldEvent::Step { rank } => {
                if step(course, world, rank, place) {
                    revive(course, world, rank, plan, place);
                }
            }
            WorldEvent::Arrive { source, dest, .. } => course.deliver(world, source, dest),
            WorldEvent::Store { rank } if loses_misses(course, world, rank) => {}
            // refused where it was done before, or wasn't to be done
            WorldEvent::Store { .. } | WorldEvent::Ack { .. } => {
                let _ = course.give(world, plan[place]);
            }
            // what arrives is put first
            WorldEvent::Put { .. } => {}
            // a plan has none of these
            WorldEvent::Image { .. }
            | WorldEvent::Crash { .. }
            | WorldEvent::Restart { .. }
            | WorldEvent::Release { .. } => {}
        }
    }
}

// Whether the rank is killed with its next act, and nothing but misses waits. On
// threads these are lost with it: they are stored once that act is over.
fn loses_misses(course: &Course, world: &World<'_>, rank: u32) -> bool {
    let next = clock_of(world, rank).saturating_add(1);
    match course.lives.get(rank as usize) {
        Some(life) => life.is_killed_at(next) && misses_only(world, rank),
        None => false,
    }
}

// The step at this place of the plan: whether a line of the script kills the rank
// with it. An image is taken at once.
fn step(course: &mut Course, world: &mut World<'_>, rank: u32, place: usize) -> bool {
    if !course.step(world, rank) {
        return false;
    }
    let clock = clock_of(world, rank);
    let may_image = is_running(world, rank);
    let Some(life) = course.lives.get_mut(rank as usize) else {
        return false;
    };
    match life.order_at(clock, may_image) {
        Some(Order::Kill) => true,
        Some(Order::Image) => {
            image(course, world, rank, place);
            false
        }
        None => false,
    }
}

// What waits at the rank's gate passes, and it takes an image, of which the
// others hear.
fn image(course: &mut Course, world: &mut World<'_>, rank: u32, place: usize) {
    settle(course, world, rank);
    let _ = course.give(world, WorldEvent::Image { rank });
    if let Some(life) = course.lives.get_mut(rank as usize) {
        life.image(place);
    }
    repeat_all(course, world, rank);
}

// The rank crashes, and comes to this place of the plan again. It may be killed
// on its way.
fn revive(
    course: &mut Course,
    world: &mut World<'_>,
    rank: u32,
    plan: &[WorldEvent],
    place: usize,
) {
    for _ in 0..MOST_SCRIPT_LINES {
        let begin = restart(course, world, rank);
        if again(course, world, rank, plan, begin, place) {
            break;
        }
    }
    if !misses_only(world, rank) {
        settle(course, world, rank);
    }
    repeat_all(course, world, rank);
}

// What waits at the rank's gate is stored, acknowledged and released. That is at
// most an act, and misses before it.
fn settle(course: &mut Course, world: &mut World<'_>, rank: u32) {
    for _ in 0..2 {
        let _ = course.give(world, WorldEvent::Store { rank });
        let _ = course.give(world, WorldEvent::Ack { rank });
        let _ = course.give(world, WorldEvent::Release { rank });
    }
}

// The rank crashes and starts again, and the others hear what it asks for: the
// place in the plan from which on it does all again.
fn restart(course: &mut Course, world: &mut World<'_>, rank: u32) -> usize {
    let _ = course.give(world, WorldEvent::Crash { rank });
    let _ = course.give(world, WorldEvent::Restart { rank });
    let begin = match course.lives.get_mut(rank as usize) {
        Some(life) => life.restart(),
        None => 0,
    };
    repeat_all(course, world, rank);
    begin
}

// What the plan has for the rank from the one place to the other comes again;
// whether it wasn't killed on its way.
fn again(
    course: &mut Course,
    world: &mut World<'_>,
    rank: u32,
    plan: &[WorldEvent],
    begin: usize,
    end: usize,
) -> bool {
    for place in begin..plan.len() {
        if place > end {
            break;
        }
        match plan[place] {
            WorldEvent::Step { rank: of } if of == rank => {
                if step(course, world, rank, place) {
                    return false;
                }
            }
            WorldEvent::Arrive { source, dest, .. } if dest == rank => {
                course.deliver(world, source, dest);
            }
            // of others; or it was stored, and is replayed
            WorldEvent::Step { .. }
            | WorldEvent::Put { .. }
            | WorldEvent::Arrive { .. }
            | WorldEvent::Store { .. }
            | WorldEvent::Ack { .. } => {}
            // a plan has none of these
            WorldEvent::Image { .. }
            | WorldEvent::Crash { .. }
            | WorldEvent::Restart { .. }
            | WorldEvent::Release { .. } => {}
        }
    }
    true
}

// What isn't new goes from the rank to each.
fn repeat_all(course: &mut Course, world: &mut World<'_>, rank: u32) {
    for dest in 0..world.ranks() {
        course.repeat(world, rank, u32::from(dest));
    }
}
