//! Frames that are put and arrive at once.
ghost use Rattle.std.specs.Prelude.{◌<◌, ℕ, IfOk, OnOk, MatchBool};
ghost use Rattle.bare_world.specs.World.{size};

use crate::bare_world::BareWorld;
use crate::event::WorldEvent;
use limits::Heap;
use std::alloc::AllocError;

impl<'p> BareWorld<'p> {
    ghost use Rattle.bare_world.specs.Onward.{IsWorld};
    ghost use Rattle.bare_world.specs.Driven.{AllLive, Flushed, Emptied, IsGone};
    ghost use Rattle.bare_world.specs.Measures.{outstanding_at};

    /// What goes next from a rank to another, if anything does, is put and
    /// arrives; whether something did. Less is outstanding then.
    fn round(
        &mut self,
        source: u8,
        dest: u8,
        events: &mut Vec<WorldEvent, Heap>,
    ) -> Result<bool, AllocError>
        requires world { IsWorld self.old }
        requires live { AllLive self.old }
        requires dest { dest < size self.old }
        ensures flushed { OnOk result (Flushed self.old events.old.items self.new events.new.items) }
        ensures more { IfOk result (λ more. MatchBool more (outstanding_at source dest self.new < outstanding_at source dest self.old)
            (IsGone source dest self.new)) }
    {
        let put = WorldEvent::Put {
            source: u32::from(source),
            dest: u32::from(dest),
        };
        let Some(index) = self.drive(put, events)?.index() else {
            return Ok(false);
        };
        let arrive = WorldEvent::Arrive {
            source: u32::from(source),
            dest: u32::from(dest),
            index,
        };
        self.drive(arrive, events)?;
        Ok(true)
    }

    /// All that goes from a rank to another is put and arrives: no more frames
    /// than are outstanding.
    fn flush(
        &mut self,
        source: u8,
        dest: u8,
        events: &mut Vec<WorldEvent, Heap>,
    ) -> Result<(), AllocError>
        requires world { IsWorld self.old }
        requires live { AllLive self.old }
        requires dest { dest < size self.old }
        ensures flushed { OnOk result (Flushed self.old events.old.items self.new events.new.items) }
        ensures emptied { OnOk result (Emptied source dest self.old self.new) }
    {
        while self.round(source, dest, events)? {}
        Ok(())
    }

    /// All that goes from a rank to each is put and arrives.
    pub(super) fn flush_from(
        &mut self,
        source: u8,
        events: &mut Vec<WorldEvent, Heap>,
    ) -> Result<(), AllocError>
        requires world { IsWorld self.old }
        requires live { AllLive self.old }
        ensures flushed { OnOk result (Flushed self.old events.old.items self.new events.new.items) }
        ensures emptied { OnOk result ((d : ℕ) → d < size self.new → Emptied source d self.old self.new) }
    {
        for dest in 0..self.ranks {
            self.flush(source, dest, events)?;
        }
        Ok(())
    }

    /// All that goes from each rank to each is put and arrives.
    pub(super) fn flush_all(&mut self, events: &mut Vec<WorldEvent, Heap>) -> Result<(), AllocError>
        requires world { IsWorld self.old }
        requires live { AllLive self.old }
        ensures flushed { OnOk result (Flushed self.old events.old.items self.new events.new.items) }
        ensures emptied { OnOk result ((s d : ℕ) → s < size self.new → d < size self.new → Emptied s d self.old self.new) }
    {
        for source in 0..self.ranks {
            self.flush_from(source, events)?;
        }
        Ok(())
    }
}
