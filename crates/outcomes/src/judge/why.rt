//! Why an outcome is that of no run, and where.
ghost use Rattle.std.specs.Prelude.{◌≤◌, IfOk, string_bytes};
ghost use Rattle.outcomes.specs.Judge.Judged.{IsNoText};
ghost use Rattle.limits.specs.Limits.{most_ranks};

use crate::judge::could::put_could;
use crate::judge::follower::Follower;
use crate::text::OutcomeText;
use audit::final_runs::FinalFault;
use audit::{AuditFault, End, Line, Outcome};
use limits::Heap;
use rank_language::{Program, line_of_text};
use rank_machine::Want;
use rank_text::text_writer::TextWriter;
use std::alloc::AllocError;

/// What was asked: whether a run of the program on so many ranks, each with so
/// many steps, has the outcome of a text.
#[derive(Clone, Copy)]
pub struct Question<'a> {
    pub program: &'a Program,
    /// The text of the program.
    pub text: &'a [u8],
    /// For each statement, by its position, the line of the text that it stands on.
    pub lines: &'a [usize],
    pub ranks: u8,
    pub steps: u32,
    pub outcome: &'a Outcome,
    pub read: &'a OutcomeText,
    /// The text of the outcome.
    pub outcome_text: &'a [u8],
    pub ghost some_rank: { 1 ≤ ranks },
    pub ghost few_ranks: { ranks ≤ most_ranks },
}

/// What of the outcome a rank doesn't come to.
#[derive(Clone, Copy)]
enum Missed {
    /// Its act of this clock, which it may make once another rank goes on.
    Awaited(u32),
    /// Its act of this clock.
    Act(u32),
    /// How it ended.
    End,
}

/// `no`, the reason in words, and where the outcome and the program depart: of
/// the rank that the audit names, its line of the outcome, the statement at
/// which it stands, and the lines that could stand there instead.
///
/// Where a rank may only wait for another, each such rank is shown.
#[tactic(auto, using(crate::proofs::JudgeLaws::Telling::is_no_text))]
pub fn why_text(
    alloc: Heap,
    asked: &Question<'_>,
    why: FinalFault,
) -> Result<String<Heap>, AllocError>
    ensures { IfOk result (λ text. IsNoText (string_bytes text)) }
{
    let reason = reason_text(alloc, asked, why)?;
    let mut text = String::from_str(alloc, "no\n")?;
    text.push_str(reason.as_str())?;
    Ok(text)
}

// What stands behind the `no`. It is a text of its own, so that whatever it is, the first line stays as it is.
fn reason_text(
    alloc: Heap,
    asked: &Question<'_>,
    why: FinalFault,
) -> Result<String<Heap>, AllocError> {
    let mut text = match why {
        FinalFault::Audit(fault) => TextWriter::begun(fault_line(alloc, fault), alloc),
        FinalFault::FalseStall(_) => TextWriter::new(alloc),
    };
    put_departure(alloc, &mut text, asked, why);
    text.done()
}

fn fault_line(alloc: Heap, fault: AuditFault) -> Result<String<Heap>, AllocError> {
    format!(in alloc; "audit fault {}: {fault}\n", fault.number())
}

// Where the outcome departs from the run that keeps to it as far as it can.
fn put_departure(alloc: Heap, to: &mut TextWriter, asked: &Question<'_>, why: FinalFault) {
    let made = Follower::new(
        alloc,
        asked.program,
        asked.ranks,
        asked.outcome,
        asked.steps,
    );
    let follower = match made {
        Ok(follower) => follower,
        Err(error) => return to.fail(error),
    };
    match why {
        FinalFault::FalseStall(rank) => {
            to.numbered("rank ", u64::from(rank), ": false stall\n");
            put_rank(to, asked, &follower, rank, Missed::End);
        }
        FinalFault::Audit(_) => put_ranks(to, asked, &follower),
    }
    if let Err(error) = follower.room {
        to.fail(error);
    }
}

// The lowest rank that others may wait for, or each of those that may wait.
fn put_ranks(to: &mut TextWriter, asked: &Question<'_>, follower: &Follower<'_, '_>) {
    for rank in 0..asked.ranks {
        match missed_by(asked, follower, rank) {
            Some(Missed::Awaited(_)) | None => {}
            Some(missed) => return put_rank(to, asked, follower, rank, missed),
        }
    }
    for rank in 0..asked.ranks {
        if let Some(missed) = missed_by(asked, follower, rank) {
            put_rank(to, asked, follower, rank, missed);
        }
    }
}

// What of the outcome the rank doesn't come to, if it doesn't: the first of it.
fn missed_by(asked: &Question<'_>, follower: &Follower<'_, '_>, rank: u8) -> Option<Missed> {
    let want = follower.wants(rank);
    match (follower.next_event(rank), follower.next_line(rank)) {
        (Some(event), line) => {
            let clock = earlier(event.receiver_clock(), line);
            if is_of_message(want) && follower.left(rank) > 0 {
                Some(Missed::Awaited(clock))
            } else {
                Some(Missed::Act(clock))
            }
        }
        (None, Some(line)) => Some(Missed::Act(line.clock)),
        (None, None) => {
            let outcome = asked.outcome;
            let end = outcome.ends.get(usize::from(rank)).copied();
            if may_want(end, want) {
                None
            } else {
                Some(Missed::End)
            }
        }
    }
}

// This clock, or that of the line if it is lower.
fn earlier(clock: u32, line: Option<Line>) -> u32 {
    match line {
        Some(line) => line.clock.min(clock),
        None => clock,
    }
}

// Whether it is a receive or a probe.
fn is_of_message(want: Want) -> bool {
    match want {
        Want::Receive(_) | Want::Probe(_) | Want::TryProbe(_) => true,
        Want::Internal | Want::Send { .. } | Want::Print(_) | Want::Halted | Want::Faulted(_) =>
            false,
    }
}

fn may_want(end: Option<End>, want: Want) -> bool {
    match end {
        Some(End::Halted) => want == Want::Halted,
        Some(End::Faulted(fault)) => want == Want::Faulted(fault),
        Some(End::Stalled) => matches!(want, Want::Receive(_) | Want::Probe(_)),
        Some(End::Unfinished) => true,
        None => false,
    }
}

fn put_rank(
    to: &mut TextWriter,
    asked: &Question<'_>,
    follower: &Follower<'_, '_>,
    rank: u8,
    missed: Missed,
) {
    let number = match missed {
        Missed::Awaited(clock) | Missed::Act(clock) => asked.read.line_of_act(rank, clock),
        Missed::End => asked.read.line_of_end(rank),
    };
    put_line(to, rank, "outcome", number, asked.outcome_text);
    let line = line_at(asked, follower, rank);
    put_line(to, rank, "program", line, asked.text);
    if follower.left(rank) == 0 {
        to.numbered("rank ", u64::from(rank), " has made ");
        to.numbered("", u64::from(asked.steps), " steps\n");
    } else {
        put_could(to, follower, rank);
    }
}

// The line of the program on which the rank stands; none at its end.
fn line_at(asked: &Question<'_>, follower: &Follower<'_, '_>, rank: u8) -> Option<usize> {
    asked.lines.get(follower.position(rank)?).copied()
}

// A line of a text with its number; a position behind the last statement has none.
fn put_line(to: &mut TextWriter, rank: u8, name: &str, number: Option<usize>, text: &[u8]) {
    to.numbered("rank ", u64::from(rank), " ");
    match number {
        Some(number) => {
            to.text(name);
            to.numbered(" line ", number as u64, ": ");
            to.printable(line_of_text(text, number).unwrap_or(&[]));
        }
        None => {
            to.text("stands at the end of the ");
            to.text(name);
        }
    }
    to.sign('\n');
}
