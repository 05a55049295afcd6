//! What a rank has, for whoever looks at it: its machine, its inbox, its payload
//! log and what waits at its gate.
ghost use Rattle.std.specs.Prelude.{◌≡◌, slice_get};

use crate::replaying::Replaying;
use crate::running::Running;
use crate::waiting::Waiting;
use checkpoint::Shelf;
use matching::Inbox;
use payload_log::PayloadLog;
use rank_machine::Machine;

impl<'p, S: Shelf, D> Running<'p, S, D> {
    /// Its machine: where it stands in its program, and what it has stored.
    pub fn machine(&self) -> &Machine<'p>
        ensures { result.now ≡ self.now.machine }
    {
        &self.machine
    }

    /// The packets that it was given and hasn't received.
    pub fn inbox(&self) -> &Inbox
        ensures { result.now ≡ self.now.inbox }
    {
        &self.inbox
    }

    /// What it has sent and still keeps, for ranks that recover.
    pub fn log(&self) -> &PayloadLog
        ensures { result.now ≡ self.now.log }
    {
        &self.log
    }

    /// What waits at its gate behind so many others, the oldest first.
    pub fn waiting(&self, index: usize) -> Option<Waiting>
        ensures { result ≡ slice_get self.now.pending index }
    {
        self.pending.get(index)
    }

    /// So many of the first that wait are events that are stored and not
    /// acknowledged.
    pub fn stored(&self) -> usize
        ensures { result ≡ self.now.stored }
    {
        self.pending.stored()
    }
}

impl<'p, S: Shelf, D> Replaying<'p, S, D> {
    /// Its machine: where it stands in its program, and what it has stored.
    pub fn machine(&self) -> &Machine<'p>
        ensures { result.now ≡ self.now.node.machine }
    {
        self.running.machine()
    }

    /// The packets that it was given and hasn't received.
    pub fn inbox(&self) -> &Inbox
        ensures { result.now ≡ self.now.node.inbox }
    {
        self.running.inbox()
    }

    /// What it has sent and still keeps, for ranks that recover.
    pub fn log(&self) -> &PayloadLog
        ensures { result.now ≡ self.now.node.log }
    {
        self.running.log()
    }
}
