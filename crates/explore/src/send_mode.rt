//! How the sends of a program complete.

/// The mode of all sends of a program (MPI 1.1, section 3.4: communication modes).
#[derive(Clone, Copy)]
pub enum SendMode {
    /// A send never waits: its message is buffered.
    Buffered,
    /// A rank goes on once the messages that it sent are received. Packets of
    /// collectives wait for nobody.
    Synchronous,
}
