//! A simulation that knows of some of its ranks that they rest.
ghost use Rattle.std.specs.Prelude.{◌≡◌, ◌≢◌, ◌<◌, ◌≤◌, ◌++◌, ℕ, true, false, [], Err, Some, IfErr, IfOk, OnErr, OnOk, length, reverse, slice_get};
ghost use Rattle.limits.specs.Limits.{most_ranks};
ghost use Rattle.crash_free.specs.Inside.{GoesInside};
ghost use Rattle.crash_free.specs.Points.{AreUnmoved, IsPointOf, stood};
ghost use Rattle.crash_free.specs.Sim.{Allows, Refuses, Simulates};
ghost use Rattle.crash_free.specs.Wanted.{StandsAtAct};
ghost use Rattle.explore.specs.Resting.{AreResting, Rests, WakesReceiver};

use crash_free::{Act, Choice, NotAllowed, Passed, Point, Sim};
use limits::{Heap, MOST_RANKS};
use rank_language::Program;
use std::alloc::AllocError;
use std::marker::Model;

/// A simulation, with a mark for each rank that is known to rest: it asks for no step of its own,
/// and none of its acts is fixed. It rests until it acts itself or something is sent to it, so few
/// ranks are asked after an act what they may do.
#[derive(Drop)]
pub struct RestingSim<'p> {
    sim: Sim<'p>,
    marks: [bool; MOST_RANKS],
}

impl<'p> Model for RestingSim<'p> {
    ghost use Rattle.std.specs.Coded.{codes};
    ghost use Rattle.rank_language.specs.Coding.{placed_code};
    ghost use Rattle.crash_free.specs.Sim.{SimValue};
    ghost use Rattle.explore.specs.Resting.{AreResting};

    ghost Value = { SimValue };

    ghost coded = { Prim.hlevel (codes, placed_code) };

    ghost view = { λ s. s.sim };

    ghost invariant = { λ s. AreResting s.sim s.marks };
}

impl<'p> RestingSim<'p> {
    ghost use Rattle.crash_free.specs.Sim.{AreBegun};

    /// All ranks, at most `MOST_RANKS`, at the beginning of the program, and no act made. None is
    /// known to rest. An `Err` means out of memory.
    pub fn new(alloc: Heap, program: &'p Program, ranks: u8) -> Result<RestingSim<'p>, AllocError>
        requires some { 1 ≤ ranks }
        requires few { ranks ≤ most_ranks }
        ensures program { IfOk result (λ sim. sim.program ≡ program.entry.now) }
        ensures ranks { IfOk result (λ sim. length sim.machines ≡ ranks) }
        ensures begins { IfOk result (λ sim. AreBegun program.entry.now ranks sim.machines) }
        ensures run { IfOk result (λ sim. sim.run ≡ []) }
        ensures stands { IfOk result (λ sim. Simulates sim) }
    {
        Ok(RestingSim {
            sim: Sim::new(alloc, program, ranks)?,
            marks: [false; MOST_RANKS],
        })
    }

    /// The simulation alone.
    pub fn as_sim(&self) -> &Sim<'p>
        ensures { result.now ≡ self.now }
    {
        &self.sim
    }

    /// The same, for good.
    pub fn into_sim(self) -> Sim<'p>
        ensures { result ≡ self.entry }
    {
        self.sim
    }

    /// How many ranks there are.
    pub fn ranks(&self) -> u8
        ensures value { result ≡ length self.now.machines }
        ensures stands { Simulates self.now }
    {
        self.sim.ranks()
    }

    /// Whether the rank is known to rest.
    pub fn rests(&self, rank: u8) -> bool
        ensures { result ≡ true → Rests self.now rank }
    {
        match self.marks.get(usize::from(rank)) {
            Some(mark) => *mark,
            None => false,
        }
    }

    /// The marks of all ranks.
    pub fn marks(&self) -> [bool; MOST_RANKS]
        ensures { AreResting self.now result }
    {
        self.marks
    }

    /// Marks a rank that rests.
    pub fn mark(&mut self, rank: u8)
        requires { Rests self.old rank }
        ensures { self.new ≡ self.old }
    {
        set(&mut self.marks, rank, true);
    }

    /// Makes steps of the rank's own until it wants something else, but no more than `most`.
    /// Answers how many it made.
    pub fn stride(&mut self, rank: u8, most: u32) -> u32
        requires there { rank < length self.old.machines }
        ensures few { result ≤ most }
        ensures inside { GoesInside self.old rank result self.new }
        ensures stops { result < most → StandsAtAct self.new.machines rank }
        ensures stands { Simulates self.new }
    {
        let made = self.sim.stride(rank, most);
        set(&mut self.marks, rank, false);
        made
    }

    /// Makes the step or the act that the choice names. A refusal leaves all as it was.
    pub fn act(&mut self, rank: u8, choice: Choice) -> Result<(), NotAllowed>
        requires { rank < length self.old.machines }
        ensures ok { OnOk result (Allows self.old rank choice self.new) }
        ensures refused { IfErr result (λ why. Refuses self.old rank choice why) }
        ensures exact { (why : NotAllowed) → why ≢ NotAllowed.Memory → Refuses self.old rank choice why → result ≡ Err why }
        ensures err { OnErr result (self.new ≡ self.old) }
        ensures stands { Simulates self.new }
        ensures ranks { length self.new.machines ≡ length self.old.machines }
    {
        self.sim.act(rank, choice)?;
        set(&mut self.marks, rank, false);
        wake_receiver(&mut self.marks, self.sim.acts());
        Ok(())
    }

    /// Where all ranks stand, so that it can go back there when its run is longer. An `Err` means
    /// out of memory.
    pub fn point(&self) -> Result<Point<'p>, AllocError>
        ensures point { IfOk result (λ point. IsPointOf self.now.program (length self.now.machines) self.now.run point) }
        ensures here { IfOk result (λ point. stood self.now.program self.now.run point ≡ self.now) }
    {
        self.sim.point()
    }

    /// Goes back to a point of its run, where the ranks with these marks rest; those that `unmoved`
    /// marks stand there as they do now. Answers the acts that were made since, the oldest first. An
    /// `Err` means out of memory.
    pub fn go_back(
        &mut self,
        point: &Point<'p>,
        marks: [bool; MOST_RANKS],
        unmoved: &[bool],
    ) -> Result<Vec<Passed, Heap>, AllocError>
        requires point { IsPointOf self.old.program (length self.old.machines) self.old.run point.now }
        requires marks { AreResting (stood self.old.program self.old.run point.now) marks }
        requires unmoved { AreUnmoved self.old.machines point.now.machines unmoved.now }
        ensures back { OnOk result (self.new ≡ stood self.old.program self.old.run point.now) }
        ensures since { IfOk result (λ acts. reverse acts.items ++ self.new.run ≡ self.old.run) }
        ensures stands { Simulates self.new }
    {
        let since = self.sim.go_back(point, unmoved)?;
        self.marks = marks;
        Ok(since)
    }
}

// Gives the rank this mark.
fn set(marks: &mut [bool; MOST_RANKS], rank: u8, mark: bool)
    ensures own { mark ≡ false → slice_get marks.new rank ≢ Some true }
    ensures others { (r : ℕ) → r ≢ rank → slice_get marks.new r ≡ slice_get marks.old r }
{
    let place = usize::from(rank);
    if place < MOST_RANKS {
        marks[place] = mark;
    }
}

// Whom the last of the acts sends something has no mark.
fn wake_receiver(marks: &mut [bool; MOST_RANKS], acts: &[Passed])
    ensures { WakesReceiver acts.now marks.old marks.new }
{
    let Some(place) = acts.len().checked_sub(1) else {
        return;
    };
    let last = &acts[place];
    if let Act::Sends { dest, .. } = &last.act {
        set(marks, *dest, false);
    }
}
