//! The inbox of a rank: duplicate suppression by sequence numbers, and packets
//! in the order of their acceptance.
ghost use Rattle.std.specs.Prelude.{◌≡◌, ◌+◌, ◌*◌, ◌<◌, ◌≤◌, [], length, replicate, slice_get, position};
ghost use Rattle.std.specs.Prelude.{Some, None, true, IfOk, IfErr, IfSome, OnOk, OnErr, All, AllPairs};
ghost use Rattle.std.specs.Bool.{OnTrue};
ghost use Rattle.std.specs.List.{list_all};
ghost use Rattle.std.specs.Option.{option_copied};
ghost use Rattle.limits.specs.Limits.{greatest_clock};
ghost use Rattle.matching.specs.PacketValue.{PacketValue};
ghost use Rattle.matching.specs.Matching.{matches, is_named};
ghost use Rattle.matching.specs.Inbox.{RisesTo, is_below};
ghost use Rattle.matching.specs.Queue.{first_by, first_place, above_last};
ghost use Rattle.matching.specs.Packets.{left};

use crate::label::Label;
use crate::packet::Packet;
use crate::packets::Packets;
use crate::queue::Queue;
use crate::selector::Selector;
use limits::Heap;
use std::alloc::AllocError;
use std::marker::Model;

/// What became of a packet that arrived.
#[derive(Clone, Copy, Debug, PartialEq, Eq)]
pub enum Accept {
    /// It was the next of its source, and stands last in the inbox.
    Accepted,
    /// One of its number was accepted before: it is dropped.
    Repeated,
    /// One before it is missing: it is dropped.
    Gap,
}

/// The packets that a rank accepted and hasn't taken, in order of acceptance.
#[derive(Drop)]
pub struct Inbox {
    packets: Queue,
    // for each source the number of the last packet accepted, 0 for none
    accepted: Vec<u32, Heap>,
}

impl Model for Inbox {
    ghost use Rattle.matching.specs.Inbox.{Mailbox, IsMailbox};

    ghost Value = { Mailbox };

    ghost view = { λ b. record { packets = b.packets; accepted = b.accepted.items } };

    ghost invariant = { λ b. IsMailbox (record { packets = b.packets; accepted = b.accepted.items }) };
}

impl Inbox {
    ghost use Rattle.matching.specs.Inbox.{accepted_from, answer_to, after_arrival, may_follow, with_last, without, without_match, IsMailbox};

    /// The empty inbox of a rank among `size` ranks.
    pub fn new(alloc: Heap, size: usize) -> Result<Inbox, AllocError>
        ensures { IfOk result (λ b. b ≡ record { packets = []; accepted = replicate size 0 }) }
    {
        Ok(Inbox {
            packets: Queue::new(alloc),
            accepted: vec![in alloc; 0; size]?,
        })
    }

    /// An inbox without packets, after these numbers of packets were accepted,
    /// a number for each source.
    pub fn after(alloc: Heap, accepted: Vec<u32, Heap>) -> Inbox
        requires { All (λ n. n ≤ greatest_clock) accepted.items }
        ensures { result ≡ record { packets = []; accepted = accepted.items } }
    {
        Inbox {
            packets: Queue::new(alloc),
            accepted,
        }
    }

    /// The same inbox, in memory of its own. An `Err` means out of memory.
    pub fn copy(&self, alloc: Heap) -> Result<Inbox, AllocError>
        ensures { IfOk result (λ copy. copy ≡ self.now) }
    {
        Ok(Inbox {
            packets: self.packets.copy(alloc)?,
            accepted: self.accepted.as_slice().to_vec(alloc)?,
        })
    }

    /// Whether a packet of this source and number can stand behind those that
    /// are there: it was accepted, and those of its source have lower numbers.
    pub fn may_follow(&self, source: u8, number: u32) -> bool
        requires { source < length self.now.accepted }
        ensures value { result ≡ may_follow self.now source number }
        ensures low { OnTrue result (1 ≤ number) }
        ensures high { OnTrue result (number ≤ greatest_clock) }
    {
        1 <= number && number <= self.accepted(source) && all_below(&self.packets, source, number)
    }

    /// Puts a packet that was accepted before behind the others.
    #[tactic(auto, using(crate::proofs::Following::follows))]
    pub fn put_back(&mut self, packet: Packet) -> Result<(), AllocError>
        requires source { packet.source < length self.old.accepted }
        requires follows { may_follow self.old packet.source packet.number ≡ true }
        ensures ok { OnOk result (self.new ≡ with_last self.old packet) }
        ensures err { OnErr result (self.new ≡ self.old) }
    {
        match self.packets.push(packet) {
            Ok(()) => Ok(()),
            Err(_refused) => Err(AllocError),
        }
    }

    /// Takes in a packet that is the next of its source, and drops any other.
    /// An `Err` means out of memory.
    #[inline(always)]
    pub fn accept(&mut self, packet: Packet) -> Result<Accept, Packet>
        requires { packet.source < length self.old.accepted }
        ensures answer { IfOk result (λ answer. answer ≡ answer_to self.old packet) }
        ensures ok { OnOk result (self.new ≡ after_arrival self.old packet) }
        ensures size { length self.new.accepted ≡ length self.old.accepted }

        ensures next_only { OnErr result (packet.number ≡ accepted_from self.old packet.source + 1) }
        ensures back { IfErr result (λ back. back ≡ packet) }
        ensures err { OnErr result (self.new ≡ self.old) }
    {
        let source = usize::from(packet.source);
        let number = packet.number;
        let last = self.accepted[source];
        if number <= last {
            return Ok(Accept::Repeated);
        }
        if number > last + 1 {
            return Ok(Accept::Gap);
        }
        if let Err(refused) = self.packets.push(packet) {
            return Err(refused);
        }
        self.accepted[source] = number;
        Ok(Accept::Accepted)
    }

    /// The first packet in order of acceptance that the selector names.
    pub fn find(&self, selector: &Selector) -> Option<usize>
        ensures first { result ≡ position (matches selector.now) self.now.packets }
        ensures within { IfSome result (λ i. i < length self.now.packets) }
        ensures fits { IfSome result (λ i. (m : PacketValue) → slice_get self.now.packets i ≡ Some m → matches selector.now m ≡ true) }
    {
        self.packets.position(Label::Selected(*selector))
    }

    /// The first packet in order of acceptance that this source sent at this
    /// clock.
    pub fn find_named(&self, source: u8, clock: u32) -> Option<usize>
        ensures first { result ≡ position (is_named source clock) self.now.packets }
        ensures within { IfSome result (λ i. i < length self.now.packets) }
        ensures fits { IfSome result (λ i. (m : PacketValue) → slice_get self.now.packets i ≡ Some m → is_named source clock m ≡ true) }
    {
        self.packets.position(Label::Sent { source, clock })
    }

    /// The packet at this index.
    pub fn get(&self, index: usize) -> &Packet
        requires { index < length self.now.packets }
        ensures { slice_get self.now.packets index ≡ Some result.now }
    {
        self.packets.get(index)
    }

    /// Takes the packet out; those behind it move up.
    #[tactic(auto, using(std::proofs::lemmas::Option::slice_get_read))]
    pub fn take(&mut self, index: usize) -> Packet
        requires { index < length self.old.packets }
        ensures taken { slice_get self.old.packets index ≡ Some result }
        ensures left { self.new ≡ without self.old index }
    {
        self.packets.take(index)
    }

    /// The first packet in order of acceptance that the selector names, as
    /// `find` and `get` give it.
    #[inline(always)]
    pub fn first(&self, selector: &Selector) -> Option<&Packet>
        ensures first { option_copied result ≡ first_by (matches selector.now) self.now.packets }
        ensures none { result ≡ None → position (matches selector.now) self.now.packets ≡ None }
        ensures place { IfSome result (λ _. position (matches selector.now) self.now.packets
            ≡ Some (first_place (matches selector.now) self.now.packets)) }
        ensures there { IfSome result (λ m. slice_get self.now.packets (first_place (matches selector.now) self.now.packets) ≡ Some m.now) }
        ensures fits { IfSome result (λ m. matches selector.now m.now ≡ true) }
    {
        self.packets.first(Label::Selected(*selector))
    }

    /// The first packet in order of acceptance that this source sent at this
    /// clock, as `find_named` and `get` give it.
    pub fn first_named(&self, source: u8, clock: u32) -> Option<&Packet>
        ensures first { option_copied result ≡ first_by (is_named source clock) self.now.packets }
        ensures none { result ≡ None → position (is_named source clock) self.now.packets ≡ None }
        ensures place { IfSome result (λ _. position (is_named source clock) self.now.packets
            ≡ Some (first_place (is_named source clock) self.now.packets)) }
        ensures there { IfSome result (λ m. slice_get self.now.packets (first_place (is_named source clock) self.now.packets) ≡ Some m.now) }
        ensures fits { IfSome result (λ m. is_named source clock m.now ≡ true) }
    {
        self.packets.first(Label::Sent { source, clock })
    }

    /// Takes the first packet that the selector names, as `find` and `take` do.
    #[inline(always)]
    pub fn take_first(&mut self, selector: &Selector) -> Option<Packet>
        ensures taken { result ≡ first_by (matches selector.now) self.old.packets }
        ensures none { result ≡ None → position (matches selector.now) self.old.packets ≡ None }
        ensures place { IfSome result (λ _. position (matches selector.now) self.old.packets
            ≡ Some (first_place (matches selector.now) self.old.packets)) }
        ensures there { IfSome result (λ m. slice_get self.old.packets (first_place (matches selector.now) self.old.packets) ≡ Some m) }
        ensures fits { IfSome result (λ m. matches selector.now m ≡ true) }
        ensures left { self.new ≡ without_match (matches selector.now) self.old }
        ensures gone { IfSome result (λ _. self.new ≡ without self.old (first_place (matches selector.now) self.old.packets)) }
    {
        self.packets.take_first(Label::Selected(*selector))
    }

    /// Takes the first packet that this source sent at this clock, as
    /// `find_named` and `take` do.
    pub fn take_named(&mut self, source: u8, clock: u32) -> Option<Packet>
        ensures taken { result ≡ first_by (is_named source clock) self.old.packets }
        ensures none { result ≡ None → position (is_named source clock) self.old.packets ≡ None }
        ensures place { IfSome result (λ _. position (is_named source clock) self.old.packets
            ≡ Some (first_place (is_named source clock) self.old.packets)) }
        ensures there { IfSome result (λ m. slice_get self.old.packets (first_place (is_named source clock) self.old.packets) ≡ Some m) }
        ensures fits { IfSome result (λ m. is_named source clock m ≡ true) }
        ensures left { self.new ≡ without_match (is_named source clock) self.old }
        ensures gone { IfSome result (λ _. self.new ≡ without self.old (first_place (is_named source clock) self.old.packets)) }
    {
        self.packets.take_first(Label::Sent { source, clock })
    }

    /// How many packets of the source were accepted, taken ones included.
    pub fn accepted(&self, source: u8) -> u32
        requires { source < length self.now.accepted }
        ensures value { result ≡ accepted_from self.now source }
        ensures high { result ≤ greatest_clock }
    {
        self.accepted[usize::from(source)]
    }

    /// How many packets there are.
    pub fn len(&self) -> usize
        ensures { result ≡ length self.now.packets }
    {
        self.packets.len()
    }

    /// The packets in the order of their acceptance.
    pub fn packets(&self) -> Packets<'_>
        ensures { left result ≡ self.now.packets }
    {
        self.packets.iter()
    }

    /// For each source how many of its packets were accepted.
    pub fn counts(&self) -> &[u32]
        ensures counts { result.now ≡ self.now.accepted }
        ensures high { All (λ n. n ≤ greatest_clock) result.now }
    {
        &self.accepted
    }

    /// A law, for proofs alone: there are no more packets than numbers for
    /// them, since those of one source have numbers of their own.
    pub fn law_few_packets(&self)
        ensures { length self.now.packets ≤ length self.now.accepted * greatest_clock }
    {
        let _packets = &self.packets;
    }

    /// A law, for proofs alone: of one source the numbers rise along the inbox,
    /// and none is above the number accepted.
    pub fn law_numbers_rise(&self)
        ensures { IsMailbox self.now }
    {
        let _packets = &self.packets;
    }
}

// Whether the packets of this source have lower numbers. The last of them has
// the highest, so none before it is looked at.
fn all_below(packets: &Queue, source: u8, number: u32) -> bool
    requires { AllPairs RisesTo packets.now }
    ensures { result ≡ list_all (is_below source number) packets.now }
{
    is_above(number, packets.last_number(source))
}

// Whether the number is above the last one.
fn is_above(number: u32, last: Option<u32>) -> bool
    ensures { result ≡ above_last number last }
{
    match last {
        None => true,
        Some(last) => last < number,
    }
}
