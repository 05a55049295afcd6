//! A recovery schedule: the world is driven until every rank has caught up with
//! the run, and what happened is the list.
ghost use Rattle.std.specs.Prelude.{◌≡◌, IfOk, OnOk};
ghost use Rattle.bare_world.specs.World.{WorldValue};

mod flushing;
mod hearing;
mod making;

use crate::bare_world::BareWorld;
use crate::event::WorldEvent;
use crate::reply::Reply;
use limits::Heap;
use std::alloc::AllocError;

impl<'p> BareWorld<'p> {
    ghost use Rattle.bare_world.specs.Follows.{Follows};
    ghost use Rattle.bare_world.specs.Onward.{IsWorld};
    ghost use Rattle.bare_world.specs.Driven.{AllLive, Advanced, Alike, listed};
    ghost use Rattle.bare_world.specs.Way.{CaughtUp, IsWayOn};

    /// The world is driven on, and the events that it takes are a recovery
    /// schedule for each world that is like it. An `Err` means that memory was
    /// refused.
    #[tactic(auto, using(crate::proofs::Again::WholeWay::way_found))]
    pub fn way(&mut self) -> Result<Vec<WorldEvent, Heap>, AllocError>
        requires { IsWorld self.old }
        ensures way { IfOk result (λ events. (start : WorldValue) → Alike start self.old → IsWayOn start events.items) }
        ensures caught_up { OnOk result (CaughtUp self.old.run self.new) }
        ensures world { OnOk result (IsWorld self.new) }
    {
        let mut events = Vec::new(self.alloc);
        self.restart_all(&mut events)?;
        self.flush_all(&mut events)?;
        self.hear_all(&mut events)?;
        self.flush_all(&mut events)?;
        self.make_all(&mut events)?;
        Ok(events)
    }

    /// An event; where it isn't refused it goes last on the list.
    #[tactic(auto, using(crate::proofs::Alike::OneEventMore::world_after))]
    fn drive(
        &mut self,
        event: WorldEvent,
        events: &mut Vec<WorldEvent, Heap>,
    ) -> Result<Reply, AllocError>
        requires { IsWorld self.old }
        ensures follows { IfOk result (λ reply. Follows self.old event reply self.new) }
        ensures list { IfOk result (λ reply. events.new.items ≡ listed events.old.items event reply) }
    {
        events.reserve(1)?;
        let reply = self.apply(event)?;
        if !reply.is_refused() {
            events.push_reserved(event);
        }
        Ok(reply)
    }

    /// Each rank that is down starts again.
    fn restart_all(&mut self, events: &mut Vec<WorldEvent, Heap>) -> Result<(), AllocError>
        requires { IsWorld self.old }
        ensures advanced { OnOk result (Advanced self.old events.old.items self.new events.new.items) }
        ensures live { OnOk result (AllLive self.new) }
    {
        for rank in 0..self.ranks {
            let event = WorldEvent::Restart {
                rank: u32::from(rank),
            };
            self.drive(event, events)?;
        }
        Ok(())
    }
}
