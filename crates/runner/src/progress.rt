//! What a person at a terminal is told of a search that takes long.
use explore::Watch;
use std::io::{IsTerminal, Write};
use std::time::{Clock, Instant};

/// Tells how many runs a search has looked at: after a second, and again each
/// time that it has taken twice as long. Only a terminal is told.
#[derive(Drop)]
pub struct Progress<'a, C: Clock, W: Write> {
    clock: &'a C,
    to: &'a mut W,
    /// When it began; `None` where nobody is told.
    start: Option<Instant>,
    /// The seconds from the start behind which the next line is due.
    due: u64,
}

impl<'a, C: Clock, W: Write + IsTerminal> Progress<'a, C, W> {
    /// What is told from now on.
    pub fn new(clock: &'a C, to: &'a mut W) -> Progress<'a, C, W> {
        let start = if to.is_terminal() {
            Instant::now(clock).ok()
        } else {
            None
        };
        Progress {
            clock,
            to,
            start,
            due: 1,
        }
    }
}

impl<'a, C: Clock, W: Write> Progress<'a, C, W> {
    // Whether a line is due, which then is told.
    fn take_due(&mut self) -> bool {
        let Some(start) = self.start else {
            return false;
        };
        let Ok(past) = start.elapsed(self.clock) else {
            return false;
        };
        let is_due = past.as_secs() >= self.due;
        if is_due {
            self.due = self.due.saturating_mul(2);
        }
        is_due
    }
}

impl<C: Clock, W: Write> Watch for Progress<'_, C, W> {
    // A line that can't be written is left out.
    fn looked(&mut self, runs: u32) {
        if self.take_due() {
            let _ = writeln!(self.to, "{runs} runs looked at");
        }
    }
}
