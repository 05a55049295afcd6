//! At which lines the messages were sent that were never received in a run.
ghost use Rattle.std.specs.Prelude.{◌≡◌, ◌≤◌, ◌++◌, IfOk, OnOk, length, slice_get};
ghost use Rattle.limits.specs.Limits.{most_ranks};
ghost use Rattle.runner.specs.SentLines.{AreSentAt, after_act, are_between, line_of, lost_of, position_at, positions_in, sent_to, unlined, with_lines, without};

use crate::explored::{LinedLeftover, LinedLeftovers};
use crash_free::{Act, Leftover, Passed, Sim};
use limits::Heap;
use rank_language::Program;
use run_shown::trace::{Place, places_of};
use std::alloc::AllocError;

/// What was never received in a run of the program, with the lines of the sends.
/// The statement at position K of the program stands on line `lines[K]` of its
/// text. An `Err` means out of memory.
#[tactic(auto, using(crate::proofs::SentLines::none_sent))]
pub fn lined_left(
    alloc: Heap,
    program: &Program,
    ranks: u8,
    lines: &[usize],
    run: &Sim<'_>,
) -> Result<LinedLeftovers, AllocError>
    requires some { 1 ≤ ranks }
    requires few { ranks ≤ most_ranks }
    requires size { length run.now.machines ≡ ranks }
    ensures { IfOk result (AreSentAt program.now ranks lines.now run.now.run) }
{
    let left = run.left()?;
    if left.is_empty() {
        return Ok(unlined(alloc, left.as_slice())?);
    }
    let places = places_of(alloc, program, ranks, run.acts())?;
    let mut positions = Vec::new(alloc);
    for rank in 0..ranks {
        add_sends_to(
            alloc,
            &mut positions,
            ranks,
            rank,
            run.acts(),
            &places,
            &left,
        )?;
    }
    Ok(with_lines(alloc, left.as_slice(), positions.as_slice(), lines)?)
}

/// These messages, without lines.
pub fn unlined(alloc: Heap, left: &[Leftover]) -> Result<LinedLeftovers, AllocError>
    ensures { IfOk result (λ lined. lined ≡ unlined left.now) }
{
    with_lines(alloc, left, &[], &[])
}

// Each message with the line of the statement at its position, if there is one.
fn with_lines(
    alloc: Heap,
    left: &[Leftover],
    positions: &[usize],
    lines: &[usize],
) -> Result<LinedLeftovers, AllocError>
    ensures { IfOk result (λ lined. lined ≡ with_lines lines.now positions.now left.now) }
{
    let mut messages = Vec::new(alloc);
    let mut index = 0usize;
    let mut rest = left;
    while let [message, more @ ..] = rest {
        messages.push(with_line(*message, line_at(lines, positions, index)))?;
        index += 1;
        rest = more;
    }
    Ok(LinedLeftovers { messages })
}

fn with_line(message: Leftover, line: Option<usize>) -> LinedLeftover
    ensures { result ≡ record { message = message; line = line } }
{
    LinedLeftover { message, line }
}

fn line_at(lines: &[usize], positions: &[usize], index: usize) -> Option<usize>
    ensures { result ≡ line_of lines.now (slice_get positions.now index) }
{
    line_of(lines, positions.get(index).copied())
}

/// The line on which the statement at this position stands, of these lines.
pub fn line_of(lines: &[usize], position: Option<usize>) -> Option<usize>
    ensures { result ≡ line_of lines.now position }
{
    lines.get(position?).copied()
}

// The positions of the sends to the rank whose messages are among these.
fn add_sends_to(
    alloc: Heap,
    positions: &mut Vec<usize, Heap>,
    ranks: u8,
    rank: u8,
    acts: &[Passed],
    places: &[Place],
    left: &[Leftover],
) -> Result<(), AllocError>
    ensures { OnOk result (positions.new.items ≡ positions.old.items ++ sent_to ranks acts.now places.now left.now rank) }
{
    for source in 0..ranks {
        if are_between(left, rank, source) {
            add_lost(alloc, positions, rank, source, acts, places)?;
        }
    }
    Ok(())
}

fn are_between(left: &[Leftover], rank: u8, source: u8) -> bool
    ensures { result ≡ are_between left.now rank source }
{
    left.iter()
        .any(|message| message.rank == rank && message.source == source)
}

// The positions of the sends of the source to the rank whose messages the rank never received.
fn add_lost(
    alloc: Heap,
    positions: &mut Vec<usize, Heap>,
    rank: u8,
    source: u8,
    acts: &[Passed],
    places: &[Place],
) -> Result<(), AllocError>
    ensures { OnOk result (positions.new.items ≡ positions.old.items ++ lost_of acts.now places.now rank source) }
{
    let mut pending = Vec::new(alloc);
    let mut index = 0usize;
    let mut rest = acts;
    while let [passed, more @ ..] = rest {
        note_act(
            &mut pending,
            rank,
            source,
            passed,
            position_at(places, index),
        )?;
        index += 1;
        rest = more;
    }
    add_pending(positions, pending.as_slice())
}

/// The position of the act of this number, from 0, if its place is there.
pub fn position_at(places: &[Place], index: usize) -> Option<usize>
    ensures { result ≡ position_at places.now index }
{
    match places.get(index) {
        Some(place) => Some(place.position),
        None => None,
    }
}

// The positions of the source's sends to the rank, one for each, and none where the rank has taken the
// message.
fn note_act(
    pending: &mut Vec<Option<usize>, Heap>,
    rank: u8,
    source: u8,
    passed: &Passed,
    position: Option<usize>,
) -> Result<(), AllocError>
    ensures { OnOk result (pending.new.items ≡ after_act source rank pending.old.items passed.now.rank passed.now.act position) }
{
    match &passed.act {
        Act::Sends { dest, .. } => {
            if passed.rank == source && *dest == rank {
                pending.push(position)?;
            }
        }
        Act::Takes { source: of, place } => {
            if passed.rank == rank && *of == source {
                forget(pending, *place);
            }
        }
        Act::Hits { .. } | Act::Misses | Act::Prints(_) => {}
    }
    Ok(())
}

// The message at this place, from 1, is taken.
fn forget(pending: &mut Vec<Option<usize>, Heap>, place: u64)
    ensures { pending.new.items ≡ without place pending.old.items }
{
    let index = place.saturating_sub(1) as usize;
    if index < pending.len() {
        pending[index] = None;
    }
}

fn add_pending(
    positions: &mut Vec<usize, Heap>,
    pending: &[Option<usize>],
) -> Result<(), AllocError>
    ensures { OnOk result (positions.new.items ≡ positions.old.items ++ positions_in pending.now) }
{
    let mut rest = pending;
    while let [one, more @ ..] = rest {
        if let Some(position) = one {
            positions.push(*position)?;
        }
        rest = more;
    }
    Ok(())
}
