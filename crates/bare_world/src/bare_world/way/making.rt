//! The acts of the run, made again.
ghost use Rattle.std.specs.Prelude.{◌≡◌, ◌<◌, ℕ, [], ◌+◌, length, IfOk, OnOk};
ghost use Rattle.bare_world.specs.World.{Live, size, IsLive};
ghost use Rattle.crash_free.specs.Points.{first_acts};
ghost use Rattle.bare_world.specs.RunIndex.{IsNext};
ghost use Rattle.crash_free.specs.Runs.{history};
ghost use Rattle.rank_machine.specs.Machine.{MachineValue, state_of};
ghost use Rattle.bare_world.specs.Measures.{StopsAfter, HasLines, no_machine};
ghost use Rattle.bare_world.specs.OneStop.{StopsAfter-prop};

use crate::bare_world::BareWorld;
use crate::event::WorldEvent;
use limits::Heap;
use std::alloc::AllocError;
use std::marker::{Brand, PhantomData};

/// For proofs alone: a machine, and how many acts of a run come before the
/// next that its rank makes.
pub(super) trait Stand {
    ghost machine: { MachineValue };

    ghost place: { ℕ };
}

impl Stand for Brand {
    ghost machine = { no_machine };

    ghost place = { 0 };
}

/// For proofs alone: so many inner steps of the machine's state come before
/// the act. It takes no space.
#[derive(Drop)]
struct Ahead<K: Stand> {
    of: PhantomData<K>,
    ghost steps: { (k : ℕ) × StopsAfter k (state_of K.machine) } by { StopsAfter-prop (state_of K.machine) },
}

impl<'p> BareWorld<'p> {
    ghost use Rattle.bare_world.specs.Driven.{Advanced, IsCounted, MadeAt, Ready};

    /// Each act of the run is made that its rank has yet to make, the oldest
    /// first, and what its rank sends arrives.
    pub(super) fn make_all(&mut self, events: &mut Vec<WorldEvent, Heap>) -> Result<(), AllocError>
        requires { Ready self.old [] }
        ensures advanced { OnOk result (Advanced self.old events.old.items self.new events.new.items) }
        ensures ready { OnOk result (Ready self.new self.new.run) }
    {
        let mut counts = vec![in self.alloc; 0u32; usize::from(self.ranks)]?;
        for index in 0..self.run.len() {
            let rank = self.make::<Brand>(index, &mut counts, events)?;
            self.flush_from(rank, events)?;
        }
        Ok(())
    }

    /// The rank of the act at this place steps until it has made it; that
    /// rank. It is counted how many acts of each rank came up to here.
    #[tactic(auto, using(crate::proofs::Again::EachActIsMade::stocked_lines))]
    fn make<K: Stand>(
        &mut self,
        index: usize,
        counts: &mut Vec<u32, Heap>,
        events: &mut Vec<WorldEvent, Heap>,
    ) -> Result<u8, AllocError>
        requires index { index < length self.old.run }
        requires ready { Ready self.old (first_acts index self.old.run) }
        requires counted { IsCounted (size self.old) (first_acts index self.old.run) counts.old.items }
        requires place { K.place ≡ index }
        requires machine { (r : ℕ) (v : Live) → IsNext self.old.run index r → IsLive self.old r v → K.machine ≡ v.rank.machine }
        ensures advanced { OnOk result (Advanced self.old events.old.items self.new events.new.items) }
        ensures made { IfOk result (λ rank. MadeAt self.old.run index rank self.new) }
        ensures rank { IfOk result (λ rank. rank < size self.new) }
        ensures counted { OnOk result (IsCounted (size self.old) (first_acts (index + 1) self.old.run) counts.new.items) }
    {
        let rank = self.run.rank_at(index);
        counts[usize::from(rank)] += 1;
        let count = counts[usize::from(rank)];
        if self.view(rank).clock < count {
            self.law_stocked();
            let ahead: Ahead<K> = Ahead { of: PhantomData };
            self.step_to(&ahead, rank, count, events)?;
        }
        Ok(rank)
    }

    /// A rank that has yet to make its act of this clock, the next of the run,
    /// steps until it has made it.
    fn step_to<K: Stand>(
        &mut self,
        ahead: &Ahead<K>,
        rank: u8,
        count: u32,
        events: &mut Vec<WorldEvent, Heap>,
    ) -> Result<(), AllocError>
        requires ready { Ready self.old (first_acts K.place self.old.run) }
        requires next { IsNext self.old.run K.place rank }
        requires count { count ≡ length (history (first_acts K.place self.old.run) rank) + 1 }
        requires rank { rank < size self.old }
        requires machine { (v : Live) → IsLive self.old rank v → K.machine ≡ v.rank.machine }
        requires lines { (v : Live) → IsLive self.old rank v → HasLines v }
        ensures advanced { OnOk result (Advanced self.old events.old.items self.new events.new.items) }
        ensures made { OnOk result (MadeAt self.old.run K.place rank self.new) }
    {
        while self.view(rank).clock < count {
            let step = WorldEvent::Step {
                rank: u32::from(rank),
            };
            self.drive(step, events)?;
        }
        Ok(())
    }
}
