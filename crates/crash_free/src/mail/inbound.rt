//! The messages of all ranks to one.
ghost use Rattle.std.specs.Prelude.{◌≡◌, ◌<◌, ◌≤◌, [], ◌∷◌, ◌++◌, Some, None, IfOk, OnOk, OnErr, IfSome, IsNone, IsSomeAnd, IsSome, length, slice_get, slice_set};
ghost use Rattle.limits.specs.Limits.{most_ranks};
ghost use Rattle.crash_free.specs.Inbound.{all_sources, of_source, nothing_inbound};

use crate::mail::channel::Channel;
use limits::Heap;
use matching::Packet;
use std::alloc::AllocError;
use std::marker::Model;
use std::rc::Rc;

/// What came to one rank: a channel for each source that there may be.
///
/// It has none before the first message, and shares them with its clones until one changes. For a
/// search copies the mail at each branch, and often nothing came to most ranks: so a copy costs no
/// more than a count for each rank, and where nothing came no source is looked at. It has none of
/// sources above the greatest that sent something: a worker that hears of rank 0 alone has one.
#[derive(Drop)]
pub struct Inbound {
    alloc: Heap,
    // those of the first sources, shared with the clones: the first that changes gets channels of
    // its own, which still share their messages
    channels: Option<Rc<Vec<Channel, Heap>, Heap>>,
}

impl Model for Inbound {
    ghost use Rattle.std.specs.Prelude.{◌≤◌, List, [], length, option_map};
    ghost use Rattle.std.specs.Option.{unwrap_or};
    ghost use Rattle.limits.specs.Limits.{most_ranks};
    ghost use Rattle.crash_free.specs.Slots.{Slot};
    ghost use Rattle.crash_free.specs.Inbound.{all_sources};

    ghost Value = { List (List Slot) };

    ghost view = { λ a. all_sources (unwrap_or (option_map (λ shared. shared.value.items) a.channels) []) };

    ghost invariant = { λ a. length (unwrap_or (option_map (λ shared. shared.value.items) a.channels) []) ≤ most_ranks };
}

impl Clone for Inbound {
    ghost is_clone = { λ inbound clone. clone ≡ inbound };

    fn clone(&self) -> Result<Inbound, AllocError> {
        let channels = match &self.channels {
            Some(channels) => Some(channels.clone()?),
            None => None,
        };
        Ok(Inbound {
            alloc: self.alloc,
            channels,
        })
    }
}

impl Inbound {
    pub fn new(alloc: Heap) -> Inbound
        ensures { result ≡ nothing_inbound }
    {
        Inbound {
            alloc,
            channels: None,
        }
    }

    /// The messages of this source, if any came.
    #[tactic(auto, using(crate::proofs::Receivers::none_sent))]
    pub fn channel(&self, source: u8) -> Option<&Channel>
        requires { source < length self.now }
        ensures some { IfSome result (λ channel. channel.now ≡ of_source self.now source) }
        ensures none { IsNone result → of_source self.now source ≡ [] }
    {
        match &self.channels {
            Some(channels) => channels.get(usize::from(source)),
            None => None,
        }
    }

    /// The packet is one more message of this source.
    pub fn push(&mut self, source: u8, packet: Packet) -> Result<(), AllocError>
        requires { source < length self.old }
        ensures ok { OnOk result (self.new ≡ slice_set self.old source (of_source self.old source ++ Some packet ∷ [])) }
        ensures err { OnErr result (self.new ≡ self.old) }
    {
        match &mut self.channels {
            Some(channels) => push_to(self.alloc, channels, source, packet),
            None => {
                let count = usize::from(source) + 1;
                let mut channels = vec![in self.alloc; Channel::new(self.alloc); count]?;
                channels[usize::from(source)].push(packet)?;
                self.channels = Some(Rc::new(self.alloc, channels)?);
                Ok(())
            }
        }
    }

    /// Takes the message of this source with this index, from 0. An `Err` means out of memory.
    pub fn take(&mut self, source: u8, index: usize) -> Result<Packet, AllocError>
        requires source { source < length self.old }
        requires there { IsSomeAnd (slice_get (of_source self.old source) index) IsSome }
        ensures packet { IfOk result (λ packet. slice_get (of_source self.old source) index ≡ Some (Some packet)) }
        ensures left { OnOk result (self.new ≡ slice_set self.old source (slice_set (of_source self.old source) index None)) }
        ensures err { OnErr result (self.new ≡ self.old) }
    {
        let Some(channels) = &mut self.channels else {
            unreachable!()
        };
        take_from(channels, source, index)
    }
}

// The packet is one more message of this source; whoever shares the channels keeps them without it.
#[tactic(auto, using(crate::proofs::Receivers::same_clones))]
fn push_to(
    alloc: Heap,
    channels: &mut Rc<Vec<Channel, Heap>, Heap>,
    source: u8,
    packet: Packet,
) -> Result<(), AllocError>
    requires source { source < most_ranks }
    requires few { length channels.old.value.items ≤ most_ranks }
    ensures ok { OnOk result (all_sources channels.new.value.items ≡ slice_set (all_sources channels.old.value.items) source
        (of_source (all_sources channels.old.value.items) source ++ Some packet ∷ [])) }
    ensures err { OnErr result (all_sources channels.new.value.items ≡ all_sources channels.old.value.items) }
    ensures few { length channels.new.value.items ≤ most_ranks }
{
    put_at(alloc, Rc::make_mut(channels)?, usize::from(source), packet)
}

// The same of channels that nobody shares.
#[tactic(auto, using(crate::proofs::Sources::is_pushed, crate::proofs::Sources::is_left))]
fn put_at(
    alloc: Heap,
    channels: &mut Vec<Channel, Heap>,
    source: usize,
    packet: Packet,
) -> Result<(), AllocError>
    requires source { source < most_ranks }
    requires few { length channels.old.items ≤ most_ranks }
    ensures ok { OnOk result (all_sources channels.new.items ≡ slice_set (all_sources channels.old.items) source
        (of_source (all_sources channels.old.items) source ++ Some packet ∷ [])) }
    ensures err { OnErr result (all_sources channels.new.items ≡ all_sources channels.old.items) }
    ensures few { length channels.new.items ≤ most_ranks }
{
    reach(alloc, channels, source)?;
    channels[source].push(packet)
}

// Adds channels up to that of this source, if it has none.
#[tactic(auto, using(crate::proofs::Sources::one_reached))]
fn reach(alloc: Heap, channels: &mut Vec<Channel, Heap>, source: usize) -> Result<(), AllocError>
    requires source { source < most_ranks }
    requires few { length channels.old.items ≤ most_ranks }
    ensures reached { OnOk result (source < length channels.new.items) }
    ensures same { all_sources channels.new.items ≡ all_sources channels.old.items }
    ensures few { length channels.new.items ≤ most_ranks }
{
    while channels.len() <= source {
        channels.push(Channel::new(alloc))?;
    }
    Ok(())
}

// Takes the message of this source with this index; whoever shares the channels keeps them with it.
#[tactic(auto, using(crate::proofs::Receivers::same_clones))]
fn take_from(
    channels: &mut Rc<Vec<Channel, Heap>, Heap>,
    source: u8,
    index: usize,
) -> Result<Packet, AllocError>
    requires few { length channels.old.value.items ≤ most_ranks }
    requires there { IsSomeAnd (slice_get (of_source (all_sources channels.old.value.items) source) index) IsSome }
    ensures packet { IfOk result (λ packet. slice_get (of_source (all_sources channels.old.value.items) source) index ≡ Some (Some packet)) }
    ensures left { OnOk result (all_sources channels.new.value.items ≡ slice_set (all_sources channels.old.value.items) source
        (slice_set (of_source (all_sources channels.old.value.items) source) index None)) }
    ensures err { OnErr result (all_sources channels.new.value.items ≡ all_sources channels.old.value.items) }
    ensures few { length channels.new.value.items ≤ most_ranks }
{
    take_at(Rc::make_mut(channels)?, usize::from(source), index)
}

// The same of channels that nobody shares.
#[tactic(auto, using(crate::proofs::Sources::first_there, crate::proofs::Sources::is_emptied, crate::proofs::Sources::is_left, crate::proofs::Sources::is_there))]
fn take_at(
    channels: &mut Vec<Channel, Heap>,
    source: usize,
    index: usize,
) -> Result<Packet, AllocError>
    requires few { length channels.old.items ≤ most_ranks }
    requires there { IsSomeAnd (slice_get (of_source (all_sources channels.old.items) source) index) IsSome }
    ensures packet { IfOk result (λ packet. slice_get (of_source (all_sources channels.old.items) source) index ≡ Some (Some packet)) }
    ensures left { OnOk result (all_sources channels.new.items ≡ slice_set (all_sources channels.old.items) source
        (slice_set (of_source (all_sources channels.old.items) source) index None)) }
    ensures err { OnErr result (all_sources channels.new.items ≡ all_sources channels.old.items) }
    ensures few { length channels.new.items ≤ most_ranks }
{
    channels[source].take(index)
}
