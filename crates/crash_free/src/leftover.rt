//! What was never received.
ghost use Rattle.std.specs.Prelude.{◌≡◌, [], ◌∷◌, ◌++◌, OnOk, map};
ghost use Rattle.crash_free.specs.Alike.{packets_in};
ghost use Rattle.crash_free.specs.Leftovers.{left_by, mark_in};

use limits::Heap;
use matching::{Context, Packet};
use std::alloc::AllocError;

/// By what to know a message.
#[derive(Clone, Copy, PartialEq, Eq)]
pub enum MessageMark {
    /// The tag of a message between two ranks.
    Tag(u16),
    /// Of a collective's packet the kind of the collective, and its number among
    /// those of its rank.
    Call {
        kind: Option<i64>,
        number: Option<i64>,
    },
}

/// A message that was never received.
#[derive(Clone, Copy, PartialEq, Eq)]
pub struct Leftover {
    /// To whom it went.
    pub rank: u8,
    /// Of whom it is.
    pub source: u8,
    pub mark: MessageMark,
}

fn mark_of(packet: &Packet) -> MessageMark
    ensures { result ≡ mark_in packet.now.context packet.now.tag packet.now.items }
{
    match packet.context {
        Context::PointToPoint => MessageMark::Tag(packet.tag),
        Context::Collective => {
            let items = packet.payload.as_slice();
            MessageMark::Call {
                kind: items.first().copied(),
                number: items.get(2).copied(),
            }
        }
    }
}

/// Adds the messages in these slots, which the source sent to the rank.
#[tactic(auto, using(crate::proofs::Unreceived::one_more))]
pub fn add_left(
    slots: &[Option<Packet>],
    source: u8,
    rank: u8,
    out: &mut Vec<Leftover, Heap>,
) -> Result<(), AllocError>
    ensures { OnOk result (out.new.items ≡ out.old.items ++ map (left_by rank source) (packets_in slots.now)) }
{
    for slot in slots {
        add_slot(slot, source, rank, out)?;
    }
    Ok(())
}

// Adds the message in this slot, if there is one.
fn add_slot(
    slot: &Option<Packet>,
    source: u8,
    rank: u8,
    out: &mut Vec<Leftover, Heap>,
) -> Result<(), AllocError>
    ensures { OnOk result (out.new.items ≡ out.old.items ++ map (left_by rank source) (packets_in (slot.now ∷ []))) }
{
    let Some(packet) = slot else {
        return Ok(());
    };
    let mark = mark_of(packet);
    out.push(Leftover { rank, source, mark })?;
    Ok(())
}
