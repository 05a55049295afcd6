//! Which receives and probes had several answers.
ghost use Rattle.std.specs.Prelude.{◌≡◌, ◌<◌, ◌≤◌, IsSomeAnd, length, slice_get};
ghost use Rattle.rank_machine.specs.Machine.{machine_want};
ghost use Rattle.explore.specs.Chosen.{is_probe};
ghost use Rattle.explore.specs.Outcomes.{IsAmong};

use crate::moves::Move;
use crash_free::{Choice, Sim};
use limits::{Heap, MOST_RANKS};
use rank_machine::Want;
use std::alloc::AllocError;

/// A receive or a probe of a rank that had several answers in some runs.
#[derive(Clone, Copy)]
pub struct Race {
    pub rank: u8,
    /// Which statement of the program stood, from 0.
    pub position: usize,
    /// Whether it is a probe, and not a receive.
    pub probes: bool,
    /// Of which ranks it could take or find a message.
    pub sources: [bool; MOST_RANKS],
    /// Whether it could find none.
    pub misses: bool,
}

/// The races that a search came to, by ranks, and by statements of a rank.
#[derive(Drop)]
pub struct Races {
    found: Vec<Race, Heap>,
}

impl Races {
    pub fn new(alloc: Heap) -> Races {
        Races {
            found: Vec::new(alloc),
        }
    }

    /// Notes the ranks that have several of these moves, which stand rank by
    /// rank. An `Err` means out of memory.
    pub fn note(&mut self, sim: &Sim<'_>, moves: &[Move]) -> Result<(), AllocError>
        requires { (m : Move) → IsAmong moves.now m → m.rank < length sim.now.machines }
    {
        let mut at = 1;
        while at < moves.len() {
            let before = moves[at - 1];
            let next = moves[at];
            if before.rank == next.rank {
                self.add(sim, before)?;
                self.add(sim, next)?;
            }
            at += 1;
        }
        Ok(())
    }

    // Adds what the rank may choose to its race, which is new if none is noted of the statement.
    fn add(&mut self, sim: &Sim<'_>, chosen: Move) -> Result<(), AllocError>
        requires { chosen.rank < length sim.now.machines }
    {
        let position = sim.machine(chosen.rank).position();
        let place = self.place_of(chosen.rank, position);
        if !self.is_at(place, chosen.rank, position) {
            let probes = asks_to_probe(sim, chosen.rank);
            self.found
                .insert(place, without_answers(chosen.rank, position, probes))?;
        }
        if let Some(race) = self.found.get_mut(place) {
            add_answer(race, chosen.choice);
        }
        Ok(())
    }

    // Before how many of the races this statement of the rank comes.
    fn place_of(&self, rank: u8, position: usize) -> usize
        ensures { result ≤ length self.now.found.items }
    {
        let mut place = 0;
        while place < self.found.len() {
            let race = &self.found[place];
            if race.rank > rank || (race.rank == rank && race.position >= position) {
                return place;
            }
            place += 1;
        }
        place
    }

    fn is_at(&self, place: usize, rank: u8, position: usize) -> bool {
        match self.found.get(place) {
            Some(race) => race.rank == rank && race.position == position,
            None => false,
        }
    }

    pub fn into_found(self) -> Vec<Race, Heap> {
        let Races { found } = self;
        found
    }
}

fn without_answers(rank: u8, position: usize, probes: bool) -> Race {
    Race {
        rank,
        position,
        probes,
        sources: [false; MOST_RANKS],
        misses: false,
    }
}

fn add_answer(race: &mut Race, choice: Choice) {
    match choice {
        Choice::Take { source, index: _ } => {
            if let Some(from) = race.sources.get_mut(source as usize) {
                *from = true;
            }
        }
        Choice::Miss => race.misses = true,
        Choice::Next => {}
    }
}

/// Whether the rank asks for a probe.
#[tactic(auto, using(crate::proofs::Chosen::probe_asked))]
pub fn asks_to_probe(sim: &Sim<'_>, rank: u8) -> bool
    requires { rank < length sim.now.machines }
    ensures { IsSomeAnd (slice_get sim.now.machines rank) (λ machine. result ≡ is_probe (machine_want machine)) }
{
    match sim.wants(rank) {
        Want::Probe(_) | Want::TryProbe(_) => true,
        Want::Internal
        | Want::Send { .. }
        | Want::Receive(_)
        | Want::Print(_)
        | Want::Halted
        | Want::Faulted(_) => false,
    }
}
