//! Frames: what one rank puts on its way to another.
ghost use Rattle.std.specs.Prelude.{◌≡◌, ◌≤◌, ◌+◌};
ghost use Rattle.limits.specs.Limits.{greatest_clock};

use matching::Packet;
use std::alloc::AllocError;
use std::marker::Model;

/// The number from which a rank asks for packets, from 1 to one more than the greatest.
#[derive(Clone, Copy)]
pub struct AskFrom {
    number: u32,
}

impl Model for AskFrom {
    ghost use Rattle.std.specs.Prelude.{ℕ, ◌≤◌, ◌+◌};
    ghost use Rattle.limits.specs.Limits.{greatest_clock};

    ghost Value = { ℕ };

    ghost view = { λ a. a.number };

    ghost invariant = { λ a. (1 ≤ a.number) × (a.number ≤ greatest_clock + 1) };

    ghost inverse = { λ n. record { number = n } };
}

impl AskFrom {
    /// An ask from this number on.
    pub fn new(number: u32) -> AskFrom
        requires low { 1 ≤ number }
        requires high { number ≤ greatest_clock + 1 }
        ensures { result ≡ number }
    {
        AskFrom { number }
    }

    /// The number from which packets are asked for.
    pub fn number(self) -> u32
        ensures value { result ≡ self }
        ensures low { 1 ≤ result }
        ensures high { result ≤ greatest_clock + 1 }
    {
        let AskFrom { number } = self;
        number
    }
}

/// The number up to which a rank's image has accepted packets.
#[derive(Clone, Copy)]
pub struct KeptUpto {
    number: u32,
}

impl Model for KeptUpto {
    ghost use Rattle.std.specs.Prelude.{ℕ, ◌≤◌};
    ghost use Rattle.limits.specs.Limits.{greatest_clock};

    ghost Value = { ℕ };

    ghost view = { λ a. a.number };

    ghost invariant = { λ a. a.number ≤ greatest_clock };

    ghost inverse = { λ n. record { number = n } };
}

impl KeptUpto {
    /// An image has accepted up to this number.
    pub fn new(number: u32) -> KeptUpto
        requires { number ≤ greatest_clock }
        ensures { result ≡ number }
    {
        KeptUpto { number }
    }

    /// The number up to which packets were accepted.
    pub fn number(self) -> u32
        ensures value { result ≡ self }
        ensures high { result ≤ greatest_clock }
    {
        let KeptUpto { number } = self;
        number
    }
}

/// What goes from one rank to another.
#[derive(Drop)]
pub enum Frame {
    /// A packet of the sender's program.
    Data(Packet),
    /// A retransmission request: the sender lacks the receiver's packets from
    /// this number on.
    Ask { from: AskFrom },
    /// A garbage-collection notice: the sender's image has the receiver's
    /// packets up to this number.
    Kept { upto: KeptUpto },
}

// Wires are copied by the calls of `std`.
impl Clone for Frame {
    ghost is_clone = { λ frame clone. clone ≡ frame };

    fn clone(&self) -> Result<Frame, AllocError> {
        Ok(match self {
            Frame::Data(packet) => Frame::Data(packet.clone()?),
            Frame::Ask { from } => Frame::Ask { from: *from },
            Frame::Kept { upto } => Frame::Kept { upto: *upto },
        })
    }
}
