//! The audit of a run begins while its ranks are at work: the caller's thread makes the
//! crash-free run of the events that they have stored, ahead of the outcome.
ghost use Rattle.std.specs.Prelude.{◌≡◌, ◌≤◌};
ghost use Rattle.limits.specs.Limits.{most_ranks};

mod feed;

use crate::shared::Shared;
use audit::Ahead;
use event_logger::Event;
pub use feed::Feed;
use limits::Heap;
use rank_language::Program;
use std::alloc::AllocError;
use std::sync::Wait;
use std::thread::{Threads, available_parallelism, yield_now};

/// So many steps of a rank are made at most until those of the next.
const STEPS: u32 = 4096;

/// When the audit of a run on threads begins.
#[derive(Clone, Copy)]
pub enum AuditStart {
    /// While its ranks are at work, if there is a processor for it. In which order the run
    /// that it finds has their acts depends on when they made them.
    Early,
    /// Behind the run. For one outcome it finds one run.
    Behind,
}

/// What it takes to audit a run while it lasts.
#[derive(Drop)]
pub struct EarlyAudit<'p> {
    /// One of each rank, or none if the audit begins behind the run.
    pub feeds: Vec<Feed, Heap>,
    pub ahead: Ahead<'p>,
}

impl<'p> EarlyAudit<'p> {
    /// Of a run on so many ranks in which each may make so many steps. It begins before the
    /// outcome is there if it may, and there are more processors than ranks, and memory for it.
    pub fn new<R: Threads>(
        rt: &R,
        start: AuditStart,
        alloc: Heap,
        program: &'p Program,
        ranks: u8,
        steps: u32,
    ) -> EarlyAudit<'p>
        requires some { 1 ≤ ranks }
        requires few { ranks ≤ most_ranks }
        ensures { result.ahead ≡ record { program = program.entry.now; ranks = ranks; steps = steps } }
    {
        let is_early = match start {
            AuditStart::Early => has_processors(rt, usize::from(ranks) + 1),
            AuditStart::Behind => false,
        };
        if is_early {
            if let Ok(feeds) = feeds(alloc, ranks) {
                let ahead = Ahead::begin(alloc, program, ranks, steps);
                return EarlyAudit { feeds, ahead };
            }
        }
        EarlyAudit {
            feeds: Vec::new(alloc),
            ahead: Ahead::none(program, ranks, steps),
        }
    }
}

fn has_processors<R: Threads>(rt: &R, count: usize) -> bool {
    match available_parallelism(rt) {
        Ok(there) => there.get() >= count,
        Err(_) => false,
    }
}

fn feeds(alloc: Heap, ranks: u8) -> Result<Vec<Feed, Heap>, AllocError> {
    let mut feeds = Vec::new(alloc);
    for _ in 0..ranks {
        feeds.push(Feed::new(alloc)?)?;
    }
    Ok(feeds)
}

/// Goes on with the run ahead until all ranks have left. Without memory for their events it
/// leaves off.
pub fn audit_early<'q, W: Wait, H>(rt: &W, shared: &Shared<'_, H>, ahead: Ahead<'q>) -> Ahead<'q>
    ensures { result ≡ ahead.entry }
{
    let mut ahead = ahead;
    let Ok(mut rows) = no_events(shared.alloc, shared.feeds.len()) else {
        return ahead;
    };
    for _ in rt.forever() {
        if have_ended(shared.feeds) {
            return ahead;
        }
        match go_on(rt, shared.feeds, rows.as_mut_slice(), &mut ahead) {
            Ok(true) => {}
            Ok(false) => yield_now(),
            Err(AllocError) => return ahead,
        }
    }
    unreachable!()
}

fn no_events(alloc: Heap, ranks: usize) -> Result<Vec<Vec<Event, Heap>, Heap>, AllocError> {
    let mut rows = Vec::new(alloc);
    for _ in 0..ranks {
        rows.push(Vec::new(alloc))?;
    }
    Ok(rows)
}

fn have_ended(feeds: &[Feed]) -> bool {
    for feed in feeds {
        if !feed.has_ended() {
            return false;
        }
    }
    true
}

// Each rank goes on with the events that it has stored meanwhile. Answers whether any has.
fn go_on<W: Wait>(
    rt: &W,
    feeds: &[Feed],
    rows: &mut [Vec<Event, Heap>],
    ahead: &mut Ahead<'_>,
) -> Result<bool, AllocError>
    ensures { ahead.new ≡ ahead.old }
{
    let mut any = false;
    for rank in 0..ahead.ranks() {
        let place = usize::from(rank);
        if place < feeds.len() && place < rows.len() {
            any |= feeds[place].take_all(rt, &mut rows[place])?;
            ahead.go_ahead(rank, rows[place].as_slice(), STEPS);
        }
    }
    Ok(any)
}
