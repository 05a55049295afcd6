//! What a call on a rank came to.

/// What a step did.
#[derive(Clone, Copy, Debug, PartialEq, Eq)]
pub enum Turn {
    /// The machine made a step.
    Moved,
    /// A receive or a blocking probe stands, and nothing in the inbox matches.
    Blocked,
    /// A send or a print stands, and as many sends and lines wait as may.
    Held,
    /// The program has halted or faulted.
    Ended,
}

/// What became of a frame.
#[derive(Clone, Copy, Debug, PartialEq, Eq)]
pub enum Arrived {
    /// The packet was the next of its source, and stands last in the inbox.
    Accepted,
    /// A packet of its number was accepted before: it is dropped.
    Repeated,
    /// A packet before it is missing: it is dropped.
    Gap,
    /// The packet isn't of the rank from which it came: it is dropped.
    Foreign,
    /// An `Ask` or a `Kept` went to the payload log.
    Noted,
}
