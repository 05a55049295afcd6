//! Where runs stood that a search met.
ghost use Rattle.std.specs.Prelude.{◌≡◌, ◌<◌, ◌≤◌, true, false, [], IfOk, IfSome, Ok, Some, length, slice_get};
ghost use Rattle.limits.specs.Limits.{most_ranks};
ghost use Rattle.crash_free.specs.LiveVariables.Live.{IsTableOf};
ghost use Rattle.crash_free.specs.Sim.{Simulates};
ghost use Rattle.crash_free.specs.Standing.{Rows, no_rows, and_own, and_mail};
ghost use Rattle.explore.specs.LastState.{IsCurrent, Knows, KnowsTheSameBut};
ghost use Rattle.explore.specs.Met.{AddsAtMost, AreSameStates, StandsBy, WasMet, first_rows};
ghost use Rattle.explore.specs.Parts.{KeepsParts, AreParts};
ghost use Rattle.explore.specs.Settled.{AreOfProgram};

use crate::last_state::LastState;
use crate::parts::StandingParts;
use crate::state::State;
use crate::states::States;
use crash_free::live_variables::Live;
use crash_free::{Sim, Standing};
use limits::Heap;
use std::alloc::AllocError;
use std::marker::Model;

/// How many numbers, of 8 bytes each, are kept at most: 256 MiB. Vectors may
/// hold as much again in reserve.
const MOST_NUMBERS: usize = 33_554_432;

/// Where the runs of a search stood at which it would leave branches, so that it
/// searches none twice that stands where one stood before.
///
/// It keeps so many states as it may, if they fit in 256 MiB. They share their
/// parts (collapse compression: Holzmann 1997). Behind that it keeps no more, so
/// that memory stays bounded, and what stands where none of those stands is
/// searched again.
#[derive(Drop)]
pub struct Met {
    alloc: Heap,
    parts: StandingParts,
    states: States,
    // where each part is written, so that one that is kept takes no more memory
    part: Standing,
    closes: bool,
}

impl Model for Met {
    ghost use Rattle.std.specs.Prelude.{List, length};
    ghost use Rattle.explore.specs.Met.{Kept};
    ghost use Rattle.explore.specs.Parts.{all_joined, AllAreBelow};

    ghost Value = { Kept };

    ghost view = { λ m. record { closes = m.closes; states = all_joined m.parts m.states; parts = m.parts } };

    ghost invariant = { λ m. AllAreBelow (length m.parts) m.states };
}

impl Met {
    /// None yet, and at most so many. If the search closes over them, a run
    /// counts as met where one stood before, however long it is, so that a state
    /// may come back in a run.
    pub fn new(alloc: Heap, most_states: u32, closes: bool) -> Met
        ensures { result ≡ record { closes = closes; states = []; parts = [] } }
    {
        Met {
            alloc,
            parts: StandingParts::new(alloc, MOST_NUMBERS),
            states: States::new(alloc, most_states),
            part: Standing::new(alloc),
            closes,
        }
    }

    /// Whether a state may come back in a run.
    pub fn closes(&self) -> bool
        ensures { result ≡ self.now.closes }
    {
        self.closes
    }

    /// Whether a run stood where this one does, by the program's table of what
    /// is unread; if not, this is kept, where there is room. It is the last state then. An `Err`
    /// means out of memory.
    pub fn meets(
        &mut self,
        sim: &Sim<'_>,
        live: &Live,
        last: &mut LastState,
    ) -> Result<bool, AllocError>
        requires table { IsTableOf sim.now.program live.now }
        requires few { length sim.now.machines ≤ most_ranks }
        requires programs { AreOfProgram sim.now }
        requires knows { Knows live.now sim.now.program (length sim.now.machines) sim.now.run self.old.parts last.old }
        ensures yes { result ≡ Ok true → WasMet self.new sim.now }
        ensures same { result ≡ Ok true → AreSameStates self.old self.new }
        ensures adds { IfOk result (λ _. AddsAtMost self.old sim.now self.new) }
        ensures knows { IfOk result (λ _. Knows live.now sim.now.program (length sim.now.machines) sim.now.run self.new.parts last.new) }
    {
        last.catch_up(sim.acts());
        let state = state_of(
            self.alloc,
            &mut self.parts,
            &mut self.part,
            last,
            sim,
            live,
            self.closes,
        )?;
        let Some(state) = state else {
            self.states.leave_out();
            return Ok(false);
        };
        self.states.meets(state, &mut self.parts)
    }

    /// Whether a run stood where this one does, likewise, but nothing is kept of it. An `Err` means
    /// out of memory.
    pub fn has_met(
        &mut self,
        sim: &Sim<'_>,
        live: &Live,
        last: &mut LastState,
    ) -> Result<bool, AllocError>
        requires table { IsTableOf sim.now.program live.now }
        requires few { length sim.now.machines ≤ most_ranks }
        requires programs { AreOfProgram sim.now }
        requires knows { Knows live.now sim.now.program (length sim.now.machines) sim.now.run self.old.parts last.old }
        ensures yes { result ≡ Ok true → WasMet self.new sim.now }
        ensures same { IfOk result (λ _. AreSameStates self.old self.new) }
        ensures knows { IfOk result (λ _. Knows live.now sim.now.program (length sim.now.machines) sim.now.run self.new.parts last.new) }
    {
        last.catch_up(sim.acts());
        self.parts.keep_new(false);
        let state = state_of(
            self.alloc,
            &mut self.parts,
            &mut self.part,
            last,
            sim,
            live,
            self.closes,
        )?;
        self.parts.keep_new(true);
        let Some(state) = state else {
            return Ok(false);
        };
        Ok(self.states.contains(&state))
    }

    /// How many states are kept.
    pub fn states(&self) -> u32 {
        self.states.len()
    }

    /// Whether none was left out for which there was no room.
    pub fn kept_all(&self) -> bool {
        self.states.kept_all()
    }
}

// Where all ranks stand, by parts that are kept from now on. `None` if there is no room for one.
fn state_of(
    alloc: Heap,
    parts: &mut StandingParts,
    part: &mut Standing,
    last: &mut LastState,
    sim: &Sim<'_>,
    live: &Live,
    closes: bool,
) -> Result<Option<State>, AllocError>
    requires table { IsTableOf sim.now.program live.now }
    requires few { length sim.now.machines ≤ most_ranks }
    requires programs { AreOfProgram sim.now }
    requires knows { Knows live.now sim.now.program (length sim.now.machines) sim.now.run parts.old last.old }
    requires caught_up { last.old.shared ≡ length sim.now.run }
    ensures keeps { KeepsParts parts.old parts.new }
    ensures parts { IfOk result (λ found. IfSome found (λ state. (rows : Rows) × AreParts parts.new state rows
        × StandsBy closes sim.now.program (length sim.now.machines) sim.now.run rows)) }
    ensures knows { IfOk result (λ _. Knows live.now sim.now.program (length sim.now.machines) sim.now.run parts.new last.new) }
{
    let ranks = sim.ranks();
    let Some(first) = first_place(parts, part, last.length_place, sim, closes)? else {
        return Ok(None);
    };
    last.length_place = first;
    let mut rank = 0;
    while rank < ranks {
        if !find_rank(parts, part, last, sim, live, rank)? {
            return Ok(None);
        }
        rank += 1;
    }
    last.renew(sim.acts().len());
    Ok(Some(State::new(alloc, first, last.first(ranks))?))
}

// The place of how long the run is, or of nothing if the search closes over states. It is the one that
// is near, if the same stands there.
fn first_place(
    parts: &mut StandingParts,
    part: &mut Standing,
    near: u32,
    sim: &Sim<'_>,
    closes: bool,
) -> Result<Option<u32>, AllocError>
    ensures keeps { KeepsParts parts.old parts.new }
    ensures there { IfOk result (λ found. IfSome found (λ place. slice_get parts.new place ≡ Some (first_rows closes sim.now.run))) }
{
    part.clear();
    if !closes {
        sim.write_length(part)?;
    }
    if parts.has_at(near, part) {
        return Ok(Some(near));
    }
    parts.place_of(part)
}

// Has the last state know where the parts of the rank stand, and answers whether they have places.
// They are the same unless the rank is marked as changed.
fn find_rank(
    parts: &mut StandingParts,
    part: &mut Standing,
    last: &mut LastState,
    sim: &Sim<'_>,
    live: &Live,
    rank: u8,
) -> Result<bool, AllocError>
    requires rank { rank < length sim.now.machines }
    requires few { length sim.now.machines ≤ most_ranks }
    requires programs { AreOfProgram sim.now }
    requires stands { Simulates sim.now }
    requires current { slice_get last.old.changed rank ≡ Some false
        → IsCurrent live.now sim.now.program (length sim.now.machines) sim.now.run parts.old last.old rank }
    ensures keeps { KeepsParts parts.old parts.new }
    ensures current { result ≡ Ok true → IsCurrent live.now sim.now.program (length sim.now.machines) sim.now.run parts.new last.new rank }
    ensures others { KnowsTheSameBut rank last.old last.new }
    ensures unchanged { slice_get last.old.changed rank ≡ Some false → last.new ≡ last.old }
{
    if last.is_changed(rank) {
        note_rank(parts, part, last, sim, live, rank)
    } else {
        Ok(true)
    }
}

// Finds the places of the parts of the rank, and answers whether both have one.
fn note_rank(
    parts: &mut StandingParts,
    part: &mut Standing,
    last: &mut LastState,
    sim: &Sim<'_>,
    live: &Live,
    rank: u8,
) -> Result<bool, AllocError>
    requires rank { rank < length sim.now.machines }
    requires few { length sim.now.machines ≤ most_ranks }
    requires programs { AreOfProgram sim.now }
    requires stands { Simulates sim.now }
    ensures keeps { KeepsParts parts.old parts.new }
    ensures current { result ≡ Ok true → IsCurrent live.now sim.now.program (length sim.now.machines) sim.now.run parts.new last.new rank }
    ensures others { KnowsTheSameBut rank last.old last.new }
{
    let Some(own) = own_place(parts, part, last.own(rank), sim, live, rank)? else {
        return Ok(false);
    };
    last.set_own(rank, own);
    let Some(mail) = mail_place(parts, part, last.mail(rank), sim, rank)? else {
        return Ok(false);
    };
    last.set_mail(rank, mail);
    Ok(true)
}

// The place of what the rank has of its own, which is kept from now on. Nothing is written if it is
// what stands at the first place.
fn own_place(
    parts: &mut StandingParts,
    part: &mut Standing,
    first: u32,
    sim: &Sim<'_>,
    live: &Live,
    rank: u8,
) -> Result<Option<u32>, AllocError>
    requires { rank < length sim.now.machines }
    ensures keeps { KeepsParts parts.old parts.new }
    ensures there { IfOk result (λ found. IfSome found (λ place. slice_get parts.new place ≡ Some (and_own live.now sim.now no_rows rank))) }
{
    if has_own_at(parts, first, sim, live, rank) {
        return Ok(Some(first));
    }
    part.clear();
    sim.write_own(live, rank, part)?;
    parts.place_of(part)
}

// Whether the part at this place is what the rank has of its own.
fn has_own_at(parts: &StandingParts, place: u32, sim: &Sim<'_>, live: &Live, rank: u8) -> bool
    requires { rank < length sim.now.machines }
    ensures { result ≡ true → slice_get parts.now place ≡ Some (and_own live.now sim.now no_rows rank) }
{
    match parts.at(place) {
        Some(part) => sim.has_own(live, rank, part),
        None => false,
    }
}

// The place of the messages that the rank hasn't received, likewise.
fn mail_place(
    parts: &mut StandingParts,
    part: &mut Standing,
    first: u32,
    sim: &Sim<'_>,
    rank: u8,
) -> Result<Option<u32>, AllocError>
    requires { rank < length sim.now.machines }
    ensures keeps { KeepsParts parts.old parts.new }
    ensures there { IfOk result (λ found. IfSome found (λ place. slice_get parts.new place ≡ Some (and_mail sim.now no_rows rank))) }
{
    if has_mail_at(parts, first, sim, rank) {
        return Ok(Some(first));
    }
    part.clear();
    sim.write_mail(rank, part)?;
    parts.place_of(part)
}

// Whether the part at this place is the messages that the rank hasn't received.
fn has_mail_at(parts: &StandingParts, place: u32, sim: &Sim<'_>, rank: u8) -> bool
    requires { rank < length sim.now.machines }
    ensures { result ≡ true → slice_get parts.now place ≡ Some (and_mail sim.now no_rows rank) }
{
    match parts.at(place) {
        Some(part) => sim.has_mail(rank, part),
        None => false,
    }
}
