//! What a rank's recoveries, and being ready for them, cost over all its lives:
//! lost work, retransmissions, what is logged, images, and what crashes drop.
ghost use Rattle.std.specs.Prelude.{◌≡◌};
ghost use Rattle.rank_threads.specs.Costs.{kind_of, no_costs};

use rank_node::Frame;

/// How much a payload log keeps.
#[derive(Clone, Copy)]
pub struct LogSize {
    pub messages: u64,
    /// Those of their items, 8 an item.
    pub bytes: u64,
}

/// What recovery, and being ready for it, cost a rank over all its lives. Each
/// count stops at the greatest `u64`.
#[derive(Clone, Copy)]
pub struct Costs {
    /// Acts, each once.
    pub acts: u64,
    /// Acts that it had made in an earlier life already: lost work.
    pub acts_again: u64,
    /// Messages that it put into lanes, each once.
    pub messages: u64,
    /// Messages that it put into a lane again: retransmissions.
    pub messages_again: u64,
    /// Retransmission requests that it put into lanes.
    pub asks: u64,
    /// Garbage-collection notices that it put into lanes.
    pub notices: u64,
    pub images: u64,
    /// Those of all its images.
    pub image_bytes: u64,
    /// Its payload log at the end of its last life.
    pub kept: LogSize,
    /// Its payload log when it kept most messages.
    pub kept_most: LogSize,
    /// Frames on their way to it that its crashes dropped.
    pub dropped: u64,
}

impl Costs {
    /// Nothing is counted yet.
    pub fn none() -> Costs
        ensures { result ≡ no_costs }
    {
        let empty = LogSize {
            messages: 0,
            bytes: 0,
        };
        Costs {
            acts: 0,
            acts_again: 0,
            messages: 0,
            messages_again: 0,
            asks: 0,
            notices: 0,
            images: 0,
            image_bytes: 0,
            kept: empty,
            kept_most: empty,
            dropped: 0,
        }
    }
}

/// What a frame is.
#[derive(Clone, Copy)]
pub enum FrameKind {
    /// A message, with its number among those of its pair of ranks.
    Message { number: u32 },
    /// A retransmission request.
    Ask,
    /// A garbage-collection notice.
    Notice,
}

/// What this frame is.
pub fn kind_of(frame: &Frame) -> FrameKind
    ensures { result ≡ kind_of frame.now }
{
    match frame {
        Frame::Data(packet) => FrameKind::Message {
            number: packet.number,
        },
        Frame::Ask { .. } => FrameKind::Ask,
        Frame::Kept { .. } => FrameKind::Notice,
    }
}
