//! Points of a run, to which a simulation can go back.
ghost use Rattle.std.specs.Prelude.{◌≡◌, ◌++◌, IfOk, OnOk, OnErr, length, reverse};
ghost use Rattle.crash_free.specs.Sim.{Simulates};
ghost use Rattle.crash_free.specs.Points.{AreUnmoved, IsPointOf, stood};

use crate::act::Passed;
use crate::lines::PrintedValues;
use crate::mail::Mail;
use crate::sim::Sim;
use crate::sim::copying::{copied, copy_moved, replace};
use limits::Heap;
use rank_machine::Machine;
use std::alloc::AllocError;
use std::marker::Model;

/// Where all ranks of a simulation stood after so many acts of its run. It has
/// no copy of these acts, so that it takes no more memory behind a long run, and it shares messages
/// and printed values with the simulation.
#[derive(Drop)]
pub struct Point<'p> {
    machines: Vec<Machine<'p>, Heap>,
    mail: Mail,
    lines: PrintedValues,
    made: usize,
}

impl<'p> Model for Point<'p> {
    ghost use Rattle.std.specs.Coded.{codes};
    ghost use Rattle.rank_language.specs.Coding.{placed_code};
    ghost use Rattle.crash_free.specs.Points.{PointValue};

    ghost Value = { PointValue };

    ghost coded = { Prim.hlevel (codes, placed_code) };

    ghost view = { λ p. record { machines = p.machines.items; channels = p.mail; lines = p.lines; made = p.made } };
}

impl Point<'_> {
    /// How many acts were made before it.
    pub fn made(&self) -> usize
        ensures { result ≡ self.now.made }
    {
        self.made
    }
}

impl<'p> Sim<'p> {
    /// Where all ranks stand, so that the simulation can go back there when its
    /// run is longer. An `Err` means out of memory.
    pub fn point(&self) -> Result<Point<'p>, AllocError>
        ensures point { IfOk result (λ point. IsPointOf self.now.program (length self.now.machines) self.now.run point) }
        ensures here { IfOk result (λ point. stood self.now.program self.now.run point ≡ self.now) }
    {
        Ok(Point {
            machines: copied(self.alloc, &self.machines)?,
            mail: self.mail.copy(self.alloc)?,
            lines: self.lines.copy()?,
            made: self.passed.len(),
        })
    }

    /// Goes back to a point of its run. A rank that `unmoved` marks stands there as it does now: its
    /// machine isn't copied. Answers the acts that were made since, the oldest first. An `Err` means
    /// out of memory.
    pub fn go_back(
        &mut self,
        point: &Point<'p>,
        unmoved: &[bool],
    ) -> Result<Vec<Passed, Heap>, AllocError>
        requires point { IsPointOf self.old.program (length self.old.machines) self.old.run point.now }
        requires unmoved { AreUnmoved self.old.machines point.now.machines unmoved.now }
        ensures back { OnOk result (self.new ≡ stood self.old.program self.old.run point.now) }
        ensures since { IfOk result (λ acts. reverse acts.items ++ self.new.run ≡ self.old.run) }
        ensures err { OnErr result (self.new ≡ self.old) }
        ensures stands { Simulates self.new }
    {
        let machines = copy_moved(self.alloc, &self.machines, &point.machines, unmoved)?;
        let mail = point.mail.copy(self.alloc)?;
        let lines = point.lines.copy()?;
        let since = self.passed.split_off(point.made)?;
        replace(&mut self.machines, machines);
        self.mail = mail;
        self.lines = lines;
        Ok(since)
    }
}
