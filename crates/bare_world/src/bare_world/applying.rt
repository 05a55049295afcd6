//! Events, each by its name.
ghost use Rattle.std.specs.Prelude.{IfOk, OnErr};

use crate::bare_world::BareWorld;
use crate::event::WorldEvent;
use crate::reply::Reply;
use std::alloc::AllocError;

impl<'p> BareWorld<'p> {
    ghost use Rattle.bare_world.specs.Follows.{CanNot, Follows};
    ghost use Rattle.bare_world.specs.Memory.{TakesNoMemory, Unchanged};
    ghost use Rattle.bare_world.specs.Stands.{Stands};

    /// One event.
    pub fn apply(&mut self, event: WorldEvent) -> Result<Reply, AllocError>
        requires { Stands self.old }
        ensures follows { IfOk result (λ reply. Follows self.old event reply self.new) }
        ensures err { OnErr result (Unchanged self.old event self.new) }
        ensures possible { OnErr result (CanNot self.old event → ⊥) }
        ensures frugal { OnErr result (TakesNoMemory self.old event → ⊥) }
    {
        match event {
            WorldEvent::Step { rank } => self.step(rank),
            WorldEvent::Put { source, dest } => self.put(source, dest),
            WorldEvent::Arrive {
                source,
                dest,
                index,
            } => self.arrive(source, dest, index),
            WorldEvent::Store { rank } => self.store(rank),
            WorldEvent::Ack { rank } => Ok(self.ack(rank)),
            WorldEvent::Image { rank } => self.image(rank),
            WorldEvent::Crash { rank } => Ok(self.crash(rank)),
            WorldEvent::Restart { rank } => self.restart(rank),
            WorldEvent::Release { rank } => self.release(rank),
        }
    }
}
