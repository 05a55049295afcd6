//! A world that is played to the end: round robin over the ranks, until none has
//! anything left to do.
//!
//! Which events the driver chooses is in no contract of the whole. What it played
//! is, and so is what it has come to: where a round has nothing to do, the world
//! has ended or a rank is spent.
ghost use Rattle.std.specs.Prelude.{◌≡◌, ◌≢◌, ◌<◌, ◌≤◌, ℕ, [], length, IfOk, OnOk, OnErr, MatchBool, Some, slice_get};
ghost use Rattle.std.specs.Bool.{OnFalse};
ghost use Rattle.matching.specs.PacketValue.{PacketValue};
ghost use Rattle.rank_node.specs.declared.frame.Frame.TheVariants.{Data};
ghost use Rattle.bare_world.specs.Wires.{wire_of};
ghost use Rattle.bare_world.specs.declared.event.WorldEvent.TheVariants.{Arrive, Step};
ghost use Rattle.bare_world.specs.World.{size};
ghost use Rattle.bare_world.specs.Finished.{Played, PlayedAlmost, step_of, for_all, no_steps};
ghost use Rattle.bare_world.specs.Finished.{LeadsTo, IsAfter, ComesTo, steps_in, Tried, IsInVain, IsStill, ForEach, ForEachTwo};
ghost use Rattle.bare_world.specs.Finished.{HadTurn, HadTurns, HadRound, HadRounds, IsTaken};
ghost use Rattle.bare_world.specs.Finished.{StepsInVain, OpensInVain, PutsInVain, ArrivesInVain, FindsInVain};
ghost use Rattle.bare_world.specs.Follows.{Follows};
ghost use Rattle.bare_world.specs.ToTheEnd.{IsNoCrash};

mod resting;

use crate::world::World;
use bare_world::{Finish, FinishEnd, Reply, WorldEvent};
use limits::Heap;
use rank_node::Frame;
use std::alloc::AllocError;

impl<'p> World<'p> {
    /// Plays the world on, by at most so many rounds over all ranks, until no
    /// rank has anything left to do; the events that it played. In a round each
    /// rank has its turn, and makes one step at most.
    ///
    /// The world is then the one after these events, whatever stopped them:
    /// also if memory was refused, where the fetch of a restart may stay in
    /// the logger's history besides.
    pub fn finish(&mut self, alloc: Heap, rounds: u32) -> Finish
        ensures leads { LeadsTo self.old result.events.items result.end self.new }
        ensures after { IsAfter self.old self.new }
        ensures end { ComesTo self.old self.new rounds result.events.items result.end }
        ensures steps { (r : ℕ) → steps_in r result.events.items ≤ rounds }
    {
        let mut events = Vec::new(alloc);
        match self.play_out(rounds, &mut events) {
            Ok(end) => Finish { events, end },
            Err(AllocError) => Finish {
                events,
                end: FinishEnd::OutOfMemory,
            },
        }
    }

    /// Rounds, and what the world has come to then.
    fn play_out(
        &mut self,
        rounds: u32,
        events: &mut Vec<WorldEvent, Heap>,
    ) -> Result<FinishEnd, AllocError>
        ensures ok { OnOk result (Played (for_all rounds) self.old events.old.items self.new events.new.items) }
        ensures err { OnErr result (PlayedAlmost (for_all rounds) self.old events.old.items self.new events.new.items) }
        ensures end { IfOk result (λ end. events.old.items ≡ [] → ComesTo self.old self.new rounds events.new.items end) }
        ensures memory { IfOk result (λ end. end ≢ FinishEnd.OutOfMemory) }
    {
        let quiet = self.play_rounds(rounds, events)?;
        Ok(self.come_to(quiet))
    }

    /// Rounds, until one has nothing to do; whether one had.
    fn play_rounds(
        &mut self,
        rounds: u32,
        events: &mut Vec<WorldEvent, Heap>,
    ) -> Result<bool, AllocError>
        ensures ok { OnOk result (Played (for_all rounds) self.old events.old.items self.new events.new.items) }
        ensures err { OnErr result (PlayedAlmost (for_all rounds) self.old events.old.items self.new events.new.items) }
        ensures rounds { IfOk result (λ quiet. MatchBool quiet (IsStill self.new) (HadRounds rounds self.old events.old.items self.new events.new.items)) }
    {
        for _ in 0..rounds {
            let before = events.len();
            self.play_round(events)?;
            if events.len() <= before {
                return Ok(true);
            }
        }
        Ok(false)
    }

    /// Each rank that is down starts again, and each makes a step. What waits
    /// at the gates passes, and what goes out arrives. Where nothing of that
    /// happens, what was lost is looked for.
    fn play_round(&mut self, events: &mut Vec<WorldEvent, Heap>) -> Result<(), AllocError>
        ensures ok { OnOk result (Played (for_all 1) self.old events.old.items self.new events.new.items) }
        ensures err { OnErr result (PlayedAlmost (for_all 1) self.old events.old.items self.new events.new.items) }
        ensures tried { OnOk result (Tried IsStill self.old events.old.items self.new events.new.items) }
        ensures round { OnOk result (length events.old.items < length events.new.items → HadRound self.old events.old.items self.new events.new.items) }
    {
        let before = events.len();
        self.step_all(events)?;
        self.open_gates(events)?;
        self.pass_all(events)?;
        if events.len() > before {
            return Ok(());
        }
        self.find_lost(events)?;
        Ok(())
    }

    /// Each rank makes a step; one that is down starts again first.
    fn step_all(&mut self, events: &mut Vec<WorldEvent, Heap>) -> Result<(), AllocError>
        ensures ok { OnOk result (Played (for_all 1) self.old events.old.items self.new events.new.items) }
        ensures err { OnErr result (PlayedAlmost (for_all 1) self.old events.old.items self.new events.new.items) }
        ensures tried { OnOk result (Tried (ForEach StepsInVain) self.old events.old.items self.new events.new.items) }
        ensures turns { OnOk result (HadTurns self.old events.old.items self.new events.new.items) }
    {
        for rank in 0..self.ranks() {
            self.step_rank(rank, events)?;
        }
        Ok(())
    }

    /// A rank makes a step; if it is down it starts again first.
    #[tactic(auto, using(bare_world::proofs::Ending::IsPlayedOn::step_played, bare_world::proofs::Ending::IsPlayedOn::quiet_then))]
    fn step_rank(&mut self, rank: u8, events: &mut Vec<WorldEvent, Heap>) -> Result<(), AllocError>
        ensures ok { OnOk result (Played (λ r. step_of r (Step rank)) self.old events.old.items self.new events.new.items) }
        ensures err { OnErr result (PlayedAlmost no_steps self.old events.old.items self.new events.new.items) }
        ensures tried { OnOk result (Tried (StepsInVain rank) self.old events.old.items self.new events.new.items) }
        ensures turn { OnOk result (HadTurn rank self.old events.old.items self.new events.new.items) }
    {
        let rank = u32::from(rank);
        self.play(WorldEvent::Restart { rank }, events)?;
        self.play(WorldEvent::Step { rank }, events)?;
        Ok(())
    }

    /// What waits first at each gate passes.
    fn open_gates(&mut self, events: &mut Vec<WorldEvent, Heap>) -> Result<(), AllocError>
        ensures ok { OnOk result (Played no_steps self.old events.old.items self.new events.new.items) }
        ensures err { OnErr result (PlayedAlmost no_steps self.old events.old.items self.new events.new.items) }
        ensures tried { OnOk result (Tried (ForEach OpensInVain) self.old events.old.items self.new events.new.items) }
    {
        for rank in 0..self.ranks() {
            self.open_gate(rank, events)?;
        }
        Ok(())
    }

    /// At the gate of a rank the oldest event is stored and acknowledged, and
    /// the oldest send or line released, where it may be.
    #[tactic(auto, using(bare_world::proofs::Ending::IsPlayedOn::gate_played, bare_world::proofs::Ending::IsPlayedOn::gate_almost, bare_world::proofs::Ending::TriedInVain::gate_tried))]
    fn open_gate(&mut self, rank: u8, events: &mut Vec<WorldEvent, Heap>) -> Result<(), AllocError>
        ensures ok { OnOk result (Played no_steps self.old events.old.items self.new events.new.items) }
        ensures err { OnErr result (PlayedAlmost no_steps self.old events.old.items self.new events.new.items) }
        ensures tried { OnOk result (Tried (OpensInVain rank) self.old events.old.items self.new events.new.items) }
    {
        let rank = u32::from(rank);
        self.play(WorldEvent::Store { rank }, events)?;
        self.play(WorldEvent::Ack { rank }, events)?;
        self.play(WorldEvent::Release { rank }, events)?;
        Ok(())
    }

    /// What goes next from each rank to each is put and arrives.
    fn pass_all(&mut self, events: &mut Vec<WorldEvent, Heap>) -> Result<(), AllocError>
        ensures ok { OnOk result (Played no_steps self.old events.old.items self.new events.new.items) }
        ensures err { OnErr result (PlayedAlmost no_steps self.old events.old.items self.new events.new.items) }
        ensures tried { OnOk result (Tried (ForEachTwo PutsInVain) self.old events.old.items self.new events.new.items) }
    {
        for source in 0..self.ranks() {
            for dest in 0..self.ranks() {
                self.pass(source, dest, events)?;
            }
        }
        Ok(())
    }

    /// What goes next from a rank to another is put and arrives.
    fn pass(
        &mut self,
        source: u8,
        dest: u8,
        events: &mut Vec<WorldEvent, Heap>,
    ) -> Result<(), AllocError>
        ensures ok { OnOk result (Played no_steps self.old events.old.items self.new events.new.items) }
        ensures err { OnErr result (PlayedAlmost no_steps self.old events.old.items self.new events.new.items) }
        ensures tried { OnOk result (Tried (PutsInVain source dest) self.old events.old.items self.new events.new.items) }
    {
        let put = WorldEvent::Put {
            source: u32::from(source),
            dest: u32::from(dest),
        };
        let reply = self.play(put, events)?;
        let Some(index) = reply.index() else {
            return Ok(());
        };
        self.play(arrive(source, dest, index), events)?;
        Ok(())
    }

    /// Every packet on every wire arrives, of which those are accepted that a
    /// rank lacks: each packet that a live rank transmitted and still keeps is
    /// on its wire.
    fn find_lost(&mut self, events: &mut Vec<WorldEvent, Heap>) -> Result<(), AllocError>
        ensures ok { OnOk result (Played no_steps self.old events.old.items self.new events.new.items) }
        ensures err { OnErr result (PlayedAlmost no_steps self.old events.old.items self.new events.new.items) }
        ensures tried { OnOk result (Tried (ForEachTwo FindsInVain) self.old events.old.items self.new events.new.items) }
    {
        for source in 0..self.ranks() {
            for dest in 0..self.ranks() {
                self.find_between(source, dest, events)?;
            }
        }
        Ok(())
    }

    /// Every packet on the wire from a rank to another arrives.
    fn find_between(
        &mut self,
        source: u8,
        dest: u8,
        events: &mut Vec<WorldEvent, Heap>,
    ) -> Result<(), AllocError>
        requires source { source < size self.old }
        requires dest { dest < size self.old }
        ensures ok { OnOk result (Played no_steps self.old events.old.items self.new events.new.items) }
        ensures err { OnErr result (PlayedAlmost no_steps self.old events.old.items self.new events.new.items) }
        ensures tried { OnOk result (Tried (FindsInVain source dest) self.old events.old.items self.new events.new.items) }
    {
        for index in 0..self.frames(source, dest).len() {
            self.find_at(source, dest, index, events)?;
        }
        Ok(())
    }

    /// The frame of this index on the wire from a rank to another arrives, if
    /// it is a packet.
    fn find_at(
        &mut self,
        source: u8,
        dest: u8,
        index: usize,
        events: &mut Vec<WorldEvent, Heap>,
    ) -> Result<(), AllocError>
        requires source { source < size self.old }
        requires dest { dest < size self.old }
        ensures ok { OnOk result (Played no_steps self.old events.old.items self.new events.new.items) }
        ensures err { OnErr result (PlayedAlmost no_steps self.old events.old.items self.new events.new.items) }
        ensures tried { OnOk result (Tried (ArrivesInVain source dest index) self.old events.old.items self.new events.new.items) }
    {
        if !self.has_packet(source, dest, index) {
            return Ok(());
        }
        self.play(arrive(source, dest, index as u64), events)?;
        Ok(())
    }

    /// Whether the frame of this index on the wire from a rank to another is a
    /// packet.
    fn has_packet(&self, source: u8, dest: u8, index: usize) -> bool
        requires source { source < size self.now }
        requires dest { dest < size self.now }
        ensures no { OnFalse result ((p : PacketValue) → slice_get (wire_of self.now.wires source dest) index ≡ Some (Data p) → ⊥) }
    {
        matches!(self.frames(source, dest).get(index), Some(Frame::Data(_)))
    }

    /// An event, which goes last on the list if it changed something. There is
    /// room for it on the list before it happens.
    #[tactic(auto, using(bare_world::proofs::Ending::IsPlayedOn::played_one, bare_world::proofs::Ending::IsPlayedOn::played_none, bare_world::proofs::Ending::IsPlayedOn::played_failed, bare_world::proofs::Ending::IsPlayedOn::played_nothing, bare_world::proofs::Ending::TriedInVain::tried_one, bare_world::proofs::Ending::TriedInVain::tried_none, bare_world::proofs::Ending::Rounds::taken_one, bare_world::proofs::Ending::Rounds::taken_none))]
    fn play(
        &mut self,
        event: WorldEvent,
        events: &mut Vec<WorldEvent, Heap>,
    ) -> Result<Reply, AllocError>
        requires { IsNoCrash event }
        ensures ok { OnOk result (Played (λ r. step_of r event) self.old events.old.items self.new events.new.items) }
        ensures err { OnErr result (PlayedAlmost no_steps self.old events.old.items self.new events.new.items) }
        ensures tried { OnOk result (Tried (λ w. IsInVain w event) self.old events.old.items self.new events.new.items) }
        ensures taken { OnOk result (IsTaken event self.old events.old.items self.new events.new.items) }
        ensures follows { IfOk result (λ reply. Follows self.old event reply self.new) }
    {
        let _bare = &self.bare;
        events.reserve(1)?;
        let reply = self.apply(event)?;
        if reply.leaves_all() {
            return Ok(reply);
        }
        events.push_reserved(event);
        Ok(reply)
    }
}

fn arrive(source: u8, dest: u8, index: u64) -> WorldEvent
    ensures { result ≡ Arrive source dest index }
{
    WorldEvent::Arrive {
        source: u32::from(source),
        dest: u32::from(dest),
        index,
    }
}
