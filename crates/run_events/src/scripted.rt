//! Whether events play a run with the kills and the images of its script, and
//! their text.
ghost use Rattle.std.specs.Prelude.{◌≡◌, ◌<◌, ◌≤◌, ℕ, true, IfOk, IfSome, OnOk, option_map, slice_get, string_bytes};
ghost use Rattle.limits.specs.Limits.{most_event_lines, most_ranks};
ghost use Rattle.rank_text.specs.Scripts.Script.{orders_of};
ghost use Rattle.bare_world.specs.World.{size};
ghost use Rattle.run_events.specs.Scripted.{behind, IsBack, IsScriptText, PlaysScript, PlaysScriptFrom, Takes, line_at, line_of, used_lines};

use crate::fault::PlayFault;
use crate::planned::plan_of;
use crate::playing::is_there;
use crate::reviving::revived;
use crate::text::text_of;
use crate::used::used_lines;
use crash_free::Sim;
use limits::{Heap, MOST_EVENT_LINES};
use rank_language::Program;
use rank_text::script::{Order, ScriptLine};
use std::alloc::AllocError;
use world_model::{Reply, World, WorldEvent};

/// Events that play a run of the program on so many ranks with the kills and the
/// images of its script, one a line and nothing else. `unused` says how many of
/// each rank's last lines the run left. Given to a new world none of the events
/// is refused; each rank crashes and takes images where the lines that it used
/// have it, comes back, and makes the acts that it makes in the run, with the
/// same messages.
///
/// All that is tried before it is answered; `ScriptUnmet` where it isn't so.
#[tactic(auto, using(crate::proofs::WithScript::is_text))]
pub fn play_script_text(
    alloc: Heap,
    program: &Program,
    ranks: u8,
    run: &Sim<'_>,
    script: &[ScriptLine],
    unused: &[usize],
) -> Result<String<Heap>, PlayFault>
    requires some { 1 ≤ ranks }
    requires few { ranks ≤ most_ranks }
    ensures { IfOk result (λ text. IsScriptText program.now ranks run.now.run script.now unused.now (string_bytes text)) }
{
    let plan = plan_of(alloc, program, ranks, run)?.written(alloc)?;
    let events = revived(alloc, program, ranks, plan.as_slice(), script, unused)?;
    if events.len() > MOST_EVENT_LINES {
        return Err(PlayFault::TooManyEvents);
    }
    let text = text_of(alloc, events.as_slice())?;
    if plays_script(
        alloc,
        program,
        ranks,
        run,
        script,
        unused,
        events.as_slice(),
    )? {
        Ok(text)
    } else {
        Err(PlayFault::ScriptUnmet)
    }
}

// Whether the events play the run with its script, from a new world of the
// program on.
#[tactic(auto, using(crate::proofs::WithScript::played))]
fn plays_script(
    alloc: Heap,
    program: &Program,
    ranks: u8,
    run: &Sim<'_>,
    script: &[ScriptLine],
    unused: &[usize],
    events: &[WorldEvent],
) -> Result<bool, AllocError>
    requires { ranks ≤ most_ranks }
    ensures { IfOk result (λ yes. yes ≡ true → PlaysScript program.now ranks run.now.run script.now unused.now events.now) }
{
    let mut world = World::new(alloc, program, ranks)?;
    let told = plays_script_from(alloc, &mut world, ranks, run, script, unused, events);
    world.close();
    told
}

// Whether they do from this world on.
#[tactic(auto, using(crate::proofs::WithScript::goes_with))]
fn plays_script_from(
    alloc: Heap,
    world: &mut World<'_>,
    ranks: u8,
    run: &Sim<'_>,
    script: &[ScriptLine],
    unused: &[usize],
    events: &[WorldEvent],
) -> Result<bool, AllocError>
    ensures { IfOk result (λ yes. yes ≡ true → PlaysScriptFrom world.old ranks run.now.run script.now unused.now events.now world.new) }
{
    let Some(lines) = taken(alloc, world, events)? else {
        return Ok(false);
    };
    if !are_used(alloc, lines.as_slice(), ranks, script, unused)? {
        return Ok(false);
    }
    if !are_back(world) {
        return Ok(false);
    }
    world.law_stands();
    Ok(is_there(world, ranks, run))
}

// Gives the world the events: the lines of a script that they come from, unless
// one of them is refused.
#[tactic(auto, using(crate::proofs::WithScript::none_taken))]
fn taken(
    alloc: Heap,
    world: &mut World<'_>,
    events: &[WorldEvent],
) -> Result<Option<Vec<ScriptLine, Heap>>, AllocError>
    ensures { IfOk result (λ found. IfSome found (λ lines. Takes world.new world.old events.now lines.items)) }
{
    let mut lines = Vec::new(alloc);
    let mut rest = events;
    while let [event, more @ ..] = rest {
        let line = line_at(world, *event);
        if world.apply(*event)? == Reply::Refused {
            return Ok(None);
        }
        note(&mut lines, line)?;
        rest = more;
    }
    Ok(Some(lines))
}

// Adds the line, if there is one.
fn note(lines: &mut Vec<ScriptLine, Heap>, line: Option<ScriptLine>) -> Result<(), AllocError>
    ensures { OnOk result (lines.new.items ≡ behind lines.old.items line) }
{
    if let Some(line) = line {
        lines.push(line)?;
    }
    Ok(())
}

// The line of a script that the event comes from.
fn line_at(world: &World<'_>, event: WorldEvent) -> Option<ScriptLine>
    ensures { result ≡ line_at world.now event }
{
    match event {
        WorldEvent::Crash { rank } => line_of(world, rank, Order::Kill),
        WorldEvent::Image { rank } => line_of(world, rank, Order::Image),
        WorldEvent::Step { .. }
        | WorldEvent::Put { .. }
        | WorldEvent::Arrive { .. }
        | WorldEvent::Store { .. }
        | WorldEvent::Ack { .. }
        | WorldEvent::Restart { .. }
        | WorldEvent::Release { .. } => None,
    }
}

// The line that asks a rank for this where it stands.
#[tactic(auto, using(crate::proofs::WithScript::line_shown, crate::proofs::WithScript::no_line))]
fn line_of(world: &World<'_>, number: u32, order: Order) -> Option<ScriptLine>
    ensures { result ≡ option_map (line_of number order) (slice_get world.now.ranks number) }
{
    if number >= u32::from(world.ranks()) {
        return None;
    }
    let rank = number as u8;
    let clock = world.view(rank).clock;
    Some(ScriptLine { rank, clock, order })
}

// Whether these are, rank by rank, the lines of the script that were used.
fn are_used(
    alloc: Heap,
    lines: &[ScriptLine],
    ranks: u8,
    script: &[ScriptLine],
    unused: &[usize],
) -> Result<bool, AllocError>
    ensures { IfOk result (λ yes. yes ≡ true → (r : ℕ) → r < ranks → orders_of r lines.now ≡ used_lines script.now unused.now r) }
{
    let mut rank = 0;
    while rank < ranks {
        let used = used_lines(alloc, script, unused, rank)?;
        if !are_lines_of(lines, rank, used.as_slice()) {
            return Ok(false);
        }
        rank += 1;
    }
    Ok(true)
}

// Whether these are the lines for the rank.
fn are_lines_of(lines: &[ScriptLine], rank: u8, own: &[ScriptLine]) -> bool
    ensures { result ≡ true → orders_of rank lines.now ≡ own.now }
{
    let mut rest = lines;
    let mut left = own;
    while let [line, more @ ..] = rest {
        if line.rank == rank {
            match left {
                [next, behind @ ..] if next == line => left = behind,
                [_, ..] | [] => return false,
            }
        }
        rest = more;
    }
    left.is_empty()
}

// Whether each rank is live, replays nothing, and has made its acts of the run.
fn are_back(world: &World<'_>) -> bool
    ensures { result ≡ true → (r : ℕ) → r < size world.now → IsBack world.now r }
{
    let ranks = world.ranks();
    let mut rank = 0;
    while rank < ranks {
        if !is_back(world, rank) {
            return false;
        }
        rank += 1;
    }
    true
}

// Whether the rank is.
#[tactic(auto, using(crate::proofs::WithScript::is_back))]
fn is_back(world: &World<'_>, rank: u8) -> bool
    requires { rank < size world.now }
    ensures { result ≡ true → IsBack world.now rank }
{
    let view = world.view(rank);
    view.live && view.left == 0 && view.acts <= view.clock as usize
}
