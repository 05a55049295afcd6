//! Who waits in a send, after synchronous runs of a program.
ghost use Rattle.std.specs.Prelude.{◌≡◌, ◌<◌, ◌⊎◌, false, true, IfOk, IfSome, IsNone, length, slice_get};
ghost use Rattle.std.specs.List.{list_any};
ghost use Rattle.runner.specs.Waits.{AreWaits, IsEmpty, WaitWith, is_for_another, is_sent_by, is_tag, line_of_send};
ghost use Rattle.runner.specs.Waits.{some_wait, wait_for_each_other, waits_in_send, waits_somewhere};

use crate::commands::exploring::limits_of;
use crate::explored::{WaitingRank, WaitingRanks, is_sent_by, is_tag};
use command_line::ExploreJob;
use crash_free::{Leftover, Sim};
use explore::{Explored, FoundOutcome, Leftovers, SendMode, run_of};
use limits::Heap;
use rank_language::LinedProgram;
use std::alloc::AllocError;

/// The first outcome of which a run was found in which a rank waits in its send.
pub fn waiting_at(found: &Explored) -> Option<usize>
    ensures there { IfSome result (λ index. index < length found.now.outcomes) }
    ensures some { IfSome result (λ _. waits_somewhere found.now ≡ true) }
    ensures none { IsNone result → waits_somewhere found.now ≡ false }
{
    let mut index = 0;
    let mut rest = found.outcomes.as_slice();
    while let [outcome, more @ ..] = rest {
        if some_wait(outcome.left.as_slice()) {
            return Some(index);
        }
        index += 1;
        rest = more;
    }
    None
}

fn some_wait(listed: &[Leftovers]) -> bool
    ensures { result ≡ some_wait listed.now }
{
    listed.iter().any(|left| are_sent(left.messages.as_slice()))
}

fn are_sent(messages: &[Leftover]) -> bool
    ensures { result ≡ list_any (λ x. is_tag x.mark) messages.now }
{
    messages.iter().any(|message| is_tag(message.mark))
}

/// Which ranks wait in their sends in a run that has the outcome; none if none is found again.
#[tactic(auto, using(crate::proofs::Waiting::wait_with))]
pub fn waits_in(
    alloc: Heap,
    job: ExploreJob<'_>,
    searched: &LinedProgram,
    outcome: &FoundOutcome,
) -> Result<WaitingRanks, AllocError>
    ensures { IfOk result (λ waits. WaitWith searched.now.program job.entry.ranks searched.now.lines.items outcome.now.ranks waits ⊎ IsEmpty waits) }
{
    match run_of(
        alloc,
        SendMode::Synchronous,
        &searched.program,
        job.ranks,
        limits_of(job),
        outcome,
    )? {
        Some(run) => waits_after(alloc, &run, searched.lines.as_slice()),
        None => Ok(WaitingRanks {
            ranks: Vec::new(alloc),
            each_other: false,
        }),
    }
}

// Which ranks wait in their sends after a run.
fn waits_after(alloc: Heap, run: &Sim<'_>, lines: &[usize]) -> Result<WaitingRanks, AllocError>
    ensures { IfOk result (AreWaits lines.now run.now) }
{
    let left = run.left()?;
    let mut ranks = Vec::new(alloc);
    for rank in 0..run.ranks() {
        if waits_in_send(left.as_slice(), rank) {
            let line = line_of_its_send(run, rank, lines);
            ranks.push(WaitingRank { rank, line })?;
        }
    }
    Ok(WaitingRanks {
        ranks,
        each_other: wait_for_each_other(left.as_slice()),
    })
}

// The line of the send behind which a rank stands, if it is known: of a send it goes on to the
// statement behind it, and waits there.
fn line_of_its_send(run: &Sim<'_>, rank: u8, lines: &[usize]) -> Option<usize>
    requires { rank < length run.now.machines }
    ensures { result ≡ line_of_send lines.now (slice_get run.now.machines rank) }
{
    let behind = run.machine(rank).position();
    lines.get(behind.saturating_sub(1)).copied()
}

// Whether a message that the rank sent is among those that were never received.
fn waits_in_send(left: &[Leftover], rank: u8) -> bool
    ensures { result ≡ waits_in_send left.now rank }
{
    left.iter()
        .any(|message| is_sent_by(usize::from(rank), *message))
}

fn wait_for_each_other(left: &[Leftover]) -> bool
    ensures { result ≡ wait_for_each_other left.now }
{
    left.iter().all(|message| is_for_another(left, *message))
}

fn is_for_another(left: &[Leftover], message: Leftover) -> bool
    ensures { result ≡ is_for_another left.now message }
{
    !is_tag(message.mark) || (message.rank != message.source && waits_in_send(left, message.rank))
}
