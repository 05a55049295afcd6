//! What may happen to a world.

/// An event. Ranks count from 0; ranks that aren't there, like all that can't
/// happen, are answered by `Refused`.
#[derive(Clone, Copy, Debug, PartialEq, Eq)]
pub enum WorldEvent {
    /// The rank makes one step of its machine.
    Step { rank: u32 },
    /// What goes next from the source goes on its wire to the destination.
    Put { source: u32, dest: u32 },
    /// The frame of this index, from 0, on the wire from the source to the
    /// destination arrives. Each frame may arrive at any time, and again.
    Arrive { source: u32, dest: u32, index: u64 },
    /// The rank's oldest unstored event is stored by the event logger.
    Store { rank: u32 },
    /// The rank's oldest stored event that isn't acknowledged is.
    Ack { rank: u32 },
    /// The rank takes an image of itself.
    Image { rank: u32 },
    /// The rank crashes.
    Crash { rank: u32 },
    /// The rank starts again from its image and its stored events.
    Restart { rank: u32 },
    /// The oldest send or line of the rank that waits is released.
    Release { rank: u32 },
}
