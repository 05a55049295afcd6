//! Whether events play a run: they are given to a new world.
ghost use Rattle.std.specs.Prelude.{◌≡◌, ◌<◌, ◌≤◌, ℕ, true, IfOk, length, reverse};
ghost use Rattle.limits.specs.Limits.{most_ranks};
ghost use Rattle.crash_free.specs.Sim.{Simulates};
ghost use Rattle.bare_world.specs.World.{size};
ghost use Rattle.explore.specs.Own.{own};
ghost use Rattle.run_events.specs.Plays.{ArePlain, IsPlain, NoneRefused, Plays, PlaysFrom};

use crash_free::Sim;
use explore::same_acts;
use limits::Heap;
use rank_language::Program;
use std::alloc::AllocError;
use world_model::{Reply, World, WorldEvent};

/// Whether the events play the run: none of them is a crash, and a new world of
/// the program takes each of them, and then each rank has made its acts of the
/// run. An `Err` means out of memory.
#[tactic(auto, using(crate::proofs::Played::played))]
pub fn plays(
    alloc: Heap,
    program: &Program,
    ranks: u8,
    run: &Sim<'_>,
    events: &[WorldEvent],
) -> Result<bool, AllocError>
    requires { ranks ≤ most_ranks }
    ensures { IfOk result (λ yes. yes ≡ true → Plays program.now ranks run.now.run events.now) }
{
    if !are_plain(events) {
        return Ok(false);
    }
    let mut world = World::new(alloc, program, ranks)?;
    let told = plays_from(alloc, &mut world, ranks, run, events);
    world.close();
    told
}

// Whether the world takes each of the events, and then stands where the run does.
fn plays_from(
    alloc: Heap,
    world: &mut World<'_>,
    ranks: u8,
    run: &Sim<'_>,
    events: &[WorldEvent],
) -> Result<bool, AllocError>
    ensures { IfOk result (λ yes. yes ≡ true → PlaysFrom world.old ranks run.now.run events.now world.new) }
{
    let Ok(replies) = world.run(alloc, events) else {
        return Err(AllocError);
    };
    if !none_refused(replies.as_slice()) {
        return Ok(false);
    }
    Ok(is_there(world, ranks, run))
}

// Whether no event is a crash, nor one that only crashes need.
fn are_plain(events: &[WorldEvent]) -> bool
    ensures { result ≡ true → ArePlain events.now }
{
    let mut rest = events;
    while let [event, more @ ..] = rest {
        if !is_plain(*event) {
            return false;
        }
        rest = more;
    }
    true
}

fn is_plain(event: WorldEvent) -> bool
    ensures { result ≡ true → IsPlain event }
{
    match event {
        WorldEvent::Step { .. }
        | WorldEvent::Put { .. }
        | WorldEvent::Arrive { .. }
        | WorldEvent::Store { .. }
        | WorldEvent::Ack { .. } => true,
        WorldEvent::Image { .. }
        | WorldEvent::Crash { .. }
        | WorldEvent::Restart { .. }
        | WorldEvent::Release { .. } => false,
    }
}

fn none_refused(replies: &[Reply]) -> bool
    ensures { result ≡ true → NoneRefused replies.now }
{
    let mut rest = replies;
    while let [reply, more @ ..] = rest {
        if *reply == Reply::Refused {
            return false;
        }
        rest = more;
    }
    true
}

/// Whether each rank's acts are the same in the world as in the run.
pub fn is_there(world: &World<'_>, ranks: u8, run: &Sim<'_>) -> bool
    ensures world_size { result ≡ true → size world.now ≡ ranks }
    ensures run_size { result ≡ true → length run.now.machines ≡ ranks }
    ensures simulates { Simulates run.now }
    ensures same { result ≡ true → (r : ℕ) → r < ranks → own r (reverse world.now.run) ≡ own r (reverse run.now.run) }
{
    if run.ranks() != ranks || world.ranks() != ranks {
        return false;
    }
    let acts = world.acts();
    let others = run.acts();
    let mut rank = 0;
    while rank < ranks {
        if !same_acts(acts, others, rank) {
            return false;
        }
        rank += 1;
    }
    true
}
