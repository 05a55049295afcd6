//! Acts that pass, and so join the run.
ghost use Rattle.std.specs.Prelude.{◌≡◌, ◌<◌, drop, length, option_map, if◌then◌else◌, IsSome, IfOk, OnOk, OnErr, MatchBool};
ghost use Rattle.crash_free.specs.Seen.{act_of};

use crate::bare_world::BareWorld;
use crash_free::{Act, Passed};
use std::alloc::AllocError;

impl<'p> BareWorld<'p> {
    ghost use Rattle.bare_world.specs.Follows.{passed_at};
    ghost use Rattle.bare_world.specs.Seats.{with_run};

    /// Adds to the run the act of a rank with this clock, if there is one and
    /// it passes for the first time, and answers whether it did. An `Err` is
    /// refused memory.
    pub(crate) fn pass(
        &mut self,
        rank: u8,
        clock: usize,
        act: Option<Act>,
    ) -> Result<bool, AllocError>
        requires { rank < length self.old.ranks }
        ensures run { OnOk result (self.new.run ≡ passed_at self.old.run rank clock (option_map act_of act)) }
        ensures back { IfOk result (λ passed. MatchBool passed (drop 1 self.new.run ≡ self.old.run) (self.new.run ≡ self.old.run)) }
        ensures rest { self.new ≡ with_run self.old self.new.run }
        ensures some { OnErr result (IsSome act) }
        ensures err { OnErr result (self.new ≡ self.old) }
    {
        let Some(act) = act else {
            return Ok(false);
        };
        if self.run.count(rank) >= clock {
            return Ok(false);
        }
        self.run.push(Passed { rank, act })?;
        Ok(true)
    }

    /// Takes the act that passed last back, if one did.
    pub(crate) fn take_back(&mut self, passed: bool)
        ensures { self.new ≡ with_run self.old (if passed then drop 1 self.old.run else self.old.run) }
    {
        if passed {
            self.run.take_back();
        }
    }
}
