//! What a world answers to an event.
ghost use Rattle.std.specs.Prelude.{◌≡◌};
ghost use Rattle.bare_world.specs.Driven.{is_refused, index_of};
ghost use Rattle.bare_world.specs.Finished.{leaves_all};

/// The answer to an event.
#[derive(Clone, Copy, PartialEq, Eq)]
pub enum Reply {
    /// The machine made a step.
    Moved,
    /// A receive or a blocking probe stands, and nothing in the inbox matches.
    Blocked,
    /// A send or a print stands, and as many sends and lines wait as may.
    Held,
    /// The program has halted or faulted.
    Ended,
    /// The packet of this number was put, and has this index on its wire.
    PutData { index: u64, number: u32 },
    /// A request for packets from this number on was put.
    PutAsk { index: u64, from: u32 },
    /// Word that an image has the packets up to this number was put.
    PutKept { index: u64, upto: u32 },
    /// The packet was the next of its source.
    Accepted,
    /// A packet of its number was accepted before.
    Repeated,
    /// A packet before it is missing.
    Gap,
    /// A request, or word of an image, was noted.
    Noted,
    /// The event was stored, and the row has this many now.
    Stored(u32),
    /// The event was acknowledged.
    Acked,
    /// The image was taken.
    Imaged,
    /// The rank is down.
    Crashed,
    /// The rank is up, with this many events to replay.
    Restarted(u32),
    /// The send or line of this clock was released.
    Released(u32),
    /// The event can't happen, and nothing changed.
    Refused,
}

impl Reply {
    /// Whether the event was refused.
    pub(crate) fn is_refused(&self) -> bool
        ensures { result ≡ is_refused self.now }
    {
        match self {
            Reply::Refused => true,
            Reply::Moved
            | Reply::Blocked
            | Reply::Held
            | Reply::Ended
            | Reply::PutData { .. }
            | Reply::PutAsk { .. }
            | Reply::PutKept { .. }
            | Reply::Accepted
            | Reply::Repeated
            | Reply::Gap
            | Reply::Noted
            | Reply::Stored(_)
            | Reply::Acked
            | Reply::Imaged
            | Reply::Crashed
            | Reply::Restarted(_)
            | Reply::Released(_) => false,
        }
    }

    /// Whether the event left the world as it was, as this reply shows.
    pub fn leaves_all(&self) -> bool
        ensures { result ≡ leaves_all self.now }
    {
        match self {
            Reply::Refused
            | Reply::Blocked
            | Reply::Held
            | Reply::Ended
            | Reply::Repeated
            | Reply::Gap => true,
            Reply::Moved
            | Reply::PutData { .. }
            | Reply::PutAsk { .. }
            | Reply::PutKept { .. }
            | Reply::Accepted
            | Reply::Noted
            | Reply::Stored(_)
            | Reply::Acked
            | Reply::Imaged
            | Reply::Crashed
            | Reply::Restarted(_)
            | Reply::Released(_) => false,
        }
    }

    /// The index of a frame that was put on its wire.
    pub fn index(&self) -> Option<u64>
        ensures { result ≡ index_of self.now }
    {
        match self {
            Reply::PutData { index, .. }
            | Reply::PutAsk { index, .. }
            | Reply::PutKept { index, .. } => Some(*index),
            Reply::Refused
            | Reply::Moved
            | Reply::Blocked
            | Reply::Held
            | Reply::Ended
            | Reply::Accepted
            | Reply::Repeated
            | Reply::Gap
            | Reply::Noted
            | Reply::Stored(_)
            | Reply::Acked
            | Reply::Imaged
            | Reply::Crashed
            | Reply::Restarted(_)
            | Reply::Released(_) => None,
        }
    }
}
