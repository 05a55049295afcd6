//! How much a rank keeps: its payload log, and its image.
ghost use Rattle.std.specs.Prelude.{◌≡◌, ◌*◌, length, IfOk};
ghost use Rattle.rank_threads.specs.Costs.{bytes_from, image_size_in, log_in, log_size_in, messages_from, payload_from};

use super::Node;
use crate::costs::LogSize;
use checkpoint::Shelf;
use limits::Heap;
use matching::Packet;
use payload_log::Backlog;
use rank_node::Phase;
use std::alloc::AllocError;

impl<'p, 'l> Node<'p, 'l> {
    /// How many messages its payload log keeps. Those that it holds at the gate
    /// don't count.
    pub fn kept_messages(&self) -> u64
        ensures { result ≡ messages_from 0 (log_in self.now.phase) }
    {
        match &self.phase {
            Phase::Running(rank) => messages_of(rank.log().destinations()),
            Phase::Replaying(rank) => messages_of(rank.log().destinations()),
            Phase::Down(_) => 0,
        }
    }

    /// How much its payload log keeps. This looks at each message.
    pub fn log_size(&self) -> LogSize
        ensures { result ≡ log_size_in self.now.phase }
    {
        LogSize {
            messages: self.kept_messages(),
            bytes: self.kept_bytes(),
        }
    }

    fn kept_bytes(&self) -> u64
        ensures { result ≡ bytes_from 0 (log_in self.now.phase) }
    {
        match &self.phase {
            Phase::Running(rank) => bytes_of(rank.log().destinations()),
            Phase::Replaying(rank) => bytes_of(rank.log().destinations()),
            Phase::Down(_) => 0,
        }
    }

    /// How many bytes the last image on its shelf has, none where there is none.
    /// The shelf gives them only as a copy. An `Err` means out of memory.
    pub fn image_bytes(&self, alloc: Heap) -> Result<u64, AllocError>
        ensures { IfOk result (λ bytes. bytes ≡ image_size_in self.now.phase) }
    {
        let mut shelf = self.phase.shelf().copy(alloc)?;
        match shelf.get() {
            Ok(Some(image)) => Ok(image.len() as u64),
            Ok(None) => Ok(0),
            Err(_) => Err(AllocError),
        }
    }
}

fn messages_of(log: &[Backlog]) -> u64
    ensures { result ≡ messages_from 0 log.now }
{
    let mut messages = 0u64;
    let mut rest = log;
    while let [one, more @ ..] = rest {
        messages = messages.saturating_add(one.len() as u64);
        rest = more;
    }
    messages
}

fn bytes_of(log: &[Backlog]) -> u64
    ensures { result ≡ bytes_from 0 log.now }
{
    let mut bytes = 0u64;
    let mut rest = log;
    while let [one, more @ ..] = rest {
        bytes = bytes_with(bytes, one);
        rest = more;
    }
    bytes
}

// So many bytes, with those that are kept for a destination.
#[tactic(auto, using(crate::proofs::CostLemmas::payload_laws))]
fn bytes_with(before: u64, backlog: &Backlog) -> u64
    ensures { result ≡ payload_from before backlog.now.kept }
{
    let mut bytes = before;
    for place in 0..backlog.len() {
        if let Some(packet) = backlog.get(place) {
            bytes = bytes.saturating_add(bytes_in(packet));
        }
    }
    bytes
}

// Those of the packet's items.
fn bytes_in(packet: &Packet) -> u64
    ensures { result ≡ 8 * length packet.now.items }
{
    // a packet has at most as many items as its limits say
    8 * packet.payload.len() as u64
}
