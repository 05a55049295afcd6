//! Asks that arrive.
ghost use Rattle.std.specs.Prelude.{◌≡◌, ◌<◌, ℕ, length, OnOk};
ghost use Rattle.bare_world.specs.World.{size};
ghost use Rattle.bare_world.specs.Driven.{IsAsk, IsAskAt};
ghost use Rattle.bare_world.specs.Wires.{HasWire, wire_of};

use crate::bare_world::BareWorld;
use crate::event::WorldEvent;
use limits::Heap;
use rank_node::Frame;
use std::alloc::AllocError;

impl<'p> BareWorld<'p> {
    ghost use Rattle.bare_world.specs.Onward.{IsWorld};
    ghost use Rattle.bare_world.specs.Driven.{AllLive, Listened, Heard};

    /// Every ask on every wire arrives.
    pub(super) fn hear_all(&mut self, events: &mut Vec<WorldEvent, Heap>) -> Result<(), AllocError>
        requires world { IsWorld self.old }
        requires live { AllLive self.old }
        ensures listened { OnOk result (Listened self.old events.old.items self.new events.new.items) }
        ensures heard { OnOk result ((r s : ℕ) → r < size self.new → s < size self.new → Heard r s self.new) }
    {
        for source in 0..self.ranks {
            self.hear_from(source, events)?;
        }
        Ok(())
    }

    /// Every ask on the wires from a rank arrives.
    fn hear_from(
        &mut self,
        source: u8,
        events: &mut Vec<WorldEvent, Heap>,
    ) -> Result<(), AllocError>
        requires world { IsWorld self.old }
        requires live { AllLive self.old }
        requires source { source < size self.old }
        ensures listened { OnOk result (Listened self.old events.old.items self.new events.new.items) }
        ensures heard { OnOk result ((s : ℕ) → s < size self.new → Heard source s self.new) }
    {
        for dest in 0..self.ranks {
            self.hear(source, dest, events)?;
        }
        Ok(())
    }

    /// Every ask on the wire from a rank to another arrives.
    fn hear(
        &mut self,
        source: u8,
        dest: u8,
        events: &mut Vec<WorldEvent, Heap>,
    ) -> Result<(), AllocError>
        requires world { IsWorld self.old }
        requires live { AllLive self.old }
        requires source { source < size self.old }
        requires dest { dest < size self.old }
        ensures listened { OnOk result (Listened self.old events.old.items self.new events.new.items) }
        ensures heard { OnOk result (Heard source dest self.new) }
    {
        for index in 0..self.frames(source, dest) {
            if self.is_ask(source, dest, index) {
                let arrive = WorldEvent::Arrive {
                    source: u32::from(source),
                    dest: u32::from(dest),
                    index: index as u64,
                };
                self.drive(arrive, events)?;
            }
        }
        Ok(())
    }

    /// How many frames were put on the wire from a rank to another.
    fn frames(&self, source: u8, dest: u8) -> usize
        requires { HasWire self.now.wires source dest }
        ensures { result ≡ length (wire_of self.now.wires source dest) }
    {
        self.wires.wire(source, dest).len()
    }

    /// Whether the frame of this index on the wire from a rank to another is
    /// an ask.
    fn is_ask(&self, source: u8, dest: u8, index: usize) -> bool
        requires wire { HasWire self.now.wires source dest }
        requires there { index < length (wire_of self.now.wires source dest) }
        ensures { IsAskAt (wire_of self.now.wires source dest) index result }
    {
        match self.wires.wire(source, dest).get(index) {
            Some(frame) => is_ask(frame),
            None => unreachable!(),
        }
    }
}

fn is_ask(frame: &Frame) -> bool
    ensures { IsAsk frame.now result }
{
    match frame {
        Frame::Ask { .. } => true,
        Frame::Data(_) | Frame::Kept { .. } => false,
    }
}
