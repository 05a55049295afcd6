//! What an audit keeps of a rank's acts.
ghost use Rattle.std.specs.Prelude.{◌≡◌, ◌≢◌, ℕ, ◌+◌, ◌<◌, ◌≤◌, [], length, Some, IfSome, IfNone, IfOk, OnOk, slice_index_or};
ghost use Rattle.limits.specs.Limits.{greatest_clock};
ghost use Rattle.crash_free.specs.Runs.{at_place};
ghost use Rattle.audit.specs.Trace.{AreInOrder, empty_trace, with_send, with_event, with_line};

use crate::clocks::Clocks;
use crate::lines::RankLines;
use event_logger::Event;
use limits::{GREATEST_CLOCK, Heap};
use std::alloc::AllocError;
use std::marker::Model;

/// The number of a rank's acts, the clocks of what it sent to each rank, the
/// number of its events, and its lines.
#[derive(Drop)]
pub struct Trace {
    clock: u32,
    sent: Vec<Clocks, Heap>,
    events: u32,
    lines: RankLines,
}

impl Model for Trace {
    ghost use Rattle.audit.specs.Trace.{TraceValue};

    ghost Value = { TraceValue };

    ghost view = { λ t. record { clock = t.clock; sent = t.sent.items; events = t.events; lines = t.lines } };
}

impl Trace {
    pub fn new(alloc: Heap, ranks: u8) -> Result<Trace, AllocError>
        ensures { IfOk result (λ trace. trace ≡ empty_trace ranks) }
    {
        let mut sent = Vec::new(alloc);
        for _ in 0..ranks {
            sent.push(Clocks::new(alloc))?;
        }
        Ok(Trace {
            clock: 0,
            sent,
            events: 0,
            lines: RankLines::new(alloc),
        })
    }

    /// The clock of the rank's next act. No rank passes the greatest.
    pub fn next_clock(&self) -> Option<u32>
        ensures some { IfSome result (λ clock. clock ≡ self.now.clock + 1) }
        ensures few { IfSome result (λ clock. clock ≤ greatest_clock) }
        ensures none { IfNone result (greatest_clock ≤ self.now.clock) }
    {
        if self.clock < GREATEST_CLOCK {
            Some(self.clock + 1)
        } else {
            None
        }
    }

    /// The place, from 1, of the message with this clock among those that the
    /// rank sent to the destination.
    pub fn place_of(&self, dest: u8, clock: u32) -> Option<u64>
        requires { dest < length self.now.sent }
        ensures some { IfSome result (λ j. at_place (slice_index_or self.now.sent dest []) j ≡ Some clock) }
        ensures none { IfNone result (AreInOrder (slice_index_or self.now.sent dest [])
            → (j : ℕ) → at_place (slice_index_or self.now.sent dest []) j ≢ Some clock) }
    {
        self.sent[usize::from(dest)].place_of(u64::from(clock))
    }

    pub fn events(&self) -> u32
        ensures { result ≡ self.now.events }
    {
        self.events
    }

    pub fn lines(&self) -> &[(u32, i64)]
        ensures { result.now ≡ self.now.lines }
    {
        self.lines.as_slice()
    }

    pub fn note_send(&mut self, clock: u32, dest: u8) -> Result<(), AllocError>
        requires { dest < length self.old.sent }
        ensures { OnOk result (self.new ≡ with_send self.old clock dest) }
    {
        self.sent[usize::from(dest)].push(u64::from(clock))?;
        self.clock = clock;
        Ok(())
    }

    pub fn note_event(&mut self, event: Event)
        requires { self.old.events < greatest_clock }
        ensures { self.new ≡ with_event self.old event }
    {
        self.events += 1;
        self.clock = event.receiver_clock();
    }

    pub fn note_line(&mut self, clock: u32, value: i64) -> Result<(), AllocError>
        ensures { OnOk result (self.new ≡ with_line self.old clock value) }
    {
        self.lines.push(clock, value)?;
        self.clock = clock;
        Ok(())
    }
}
