//! What a rank is asked for in its life.
ghost use Rattle.std.specs.Prelude.{◌≡◌, ◌<◌, true, false, length, OnErr, IfOk, IfErr};
ghost use Rattle.rank_node.specs.Fault.{MayRefuseImage};
ghost use Rattle.rank_node.specs.Phases.{clock_in, settled_in};
ghost use Rattle.rank_threads.specs.Lives.{KeepsOutput, KeepsStand};
ghost use Rattle.rank_threads.specs.Phases.{gate_in, misses_only_in, is_running, packets_in};
ghost use Rattle.rank_threads.specs.Phases.{HasImage, NoneWaits, ReadsRow, SameShelf};

use super::Node;
use super::releasing::release_all;
use crate::early_audit::Feed;
use checkpoint::MemoryShelf;
use event_logger::{Desk, Event};
use limits::Heap;
use ports::Console;
use rank_node::{NodeFault, Phase};
use std::alloc::AllocError;
use std::sync::Wait;

impl<'p, 'l> Node<'p, 'l> {
    /// The rank, whatever it does.
    pub fn phase(&self) -> &Phase<'p, MemoryShelf, Desk>
        ensures { result.now ≡ self.now.phase }
    {
        &self.phase
    }

    /// Whether it replays, and nothing is left to replay.
    pub fn has_replayed(&self) -> bool
        ensures stays { result ≡ false → settled_in self.now.phase ≡ self.now.phase }
        ensures runs { result ≡ true → is_running (settled_in self.now.phase) ≡ true }
    {
        match &self.phase {
            Phase::Replaying(rank) => rank.left() == 0,
            Phase::Running(_) | Phase::Down(_) => false,
        }
    }

    /// Whether just one miss or run of misses waits at its gate, and isn't
    /// stored.
    pub fn misses_only(&self) -> bool
        ensures { result ≡ misses_only_in self.now.phase }
    {
        match &self.phase {
            Phase::Running(rank) => rank.misses_only(),
            Phase::Replaying(_) | Phase::Down(_) => false,
        }
    }

    /// How many packets it was given and hasn't received; none where it is down.
    pub fn waiting_packets(&self) -> usize
        ensures { result ≡ length (packets_in self.now.phase) }
    {
        match &self.phase {
            Phase::Running(rank) => rank.inbox().len(),
            Phase::Replaying(rank) => rank.inbox().len(),
            Phase::Down(_) => 0,
        }
    }

    /// How many acts it has made; none where it is down.
    pub fn clock(&self) -> u32
        ensures { result ≡ clock_in self.now.phase }
    {
        self.phase.clock()
    }

    /// The events of rank `of` whose receiver's clock is above `after`; none
    /// for a rank that is down. An `Err` means out of memory.
    pub fn read(&mut self, alloc: Heap, of: u8, after: u32) -> Result<Vec<Event, Heap>, AllocError>
        requires { of < self.old.size }
        ensures read { IfOk result (λ events. ReadsRow self.old.phase of after events.items self.new.phase) }
        ensures err { OnErr result (self.new.phase ≡ self.old.phase) }
        ensures kept { KeepsOutput self.old self.new }
    {
        let answer = match &mut self.phase {
            Phase::Running(rank) => rank.read(self.logger, of, after),
            Phase::Replaying(rank) => rank.read(self.logger, of, after),
            Phase::Down(_) => Ok(Vec::new(alloc)),
        };
        answer.map_err(|_| AllocError)
    }

    /// Takes an image of a rank that runs, and answers whether it did.
    pub fn image(&mut self) -> Result<bool, NodeFault>
        ensures running { IfOk result (λ took. took ≡ is_running self.new.phase) }
        ensures image { IfOk result (λ took. took ≡ true → HasImage self.new.phase) }
        ensures refused { IfErr result MayRefuseImage }
        ensures stays { IfOk result (λ took. took ≡ false → self.new.phase ≡ self.old.phase) }
        ensures replays { is_running self.old.phase ≡ false → self.new.phase ≡ self.old.phase }
        ensures gate { gate_in self.new.phase ≡ gate_in self.old.phase }
        ensures stands { KeepsStand self.old self.new }
    {
        match &mut self.phase {
            Phase::Running(rank) => {
                rank.image()?;
                Ok(true)
            }
            Phase::Replaying(_) | Phase::Down(_) => Ok(false),
        }
    }

    /// What waits at the gate of a rank that runs passes. Answers whether the
    /// logger took all its events, which are put into the feed. An `Err` means out of memory.
    pub fn release<W: Wait>(
        &mut self,
        rt: &W,
        console: &Console,
        feed: Option<&Feed>,
    ) -> Result<bool, AllocError>
        ensures settled { IfOk result (λ all. all ≡ true → NoneWaits self.new.phase) }
        ensures shelf { SameShelf self.old.phase self.new.phase }
        ensures stands { KeepsStand self.old self.new }
    {
        match &mut self.phase {
            Phase::Running(rank) => release_all(rt, self.logger, console, feed, rank),
            Phase::Replaying(_) | Phase::Down(_) => Ok(true),
        }
    }
}
