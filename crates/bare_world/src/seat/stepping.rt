//! Steps of a rank.
ghost use Rattle.std.specs.Prelude.{◌≡◌, ◌≢◌, [], true, None, IfOk, OnOk, OnErr};
ghost use Rattle.bare_world.specs.Seats.{with_live, IfLive, IsFitting, IsReplayed, IsStep};

use crate::occupant::{put, take};
use crate::seat::Seat;
use ports::ConsoleState;
use rank_machine::Wanted;
use rank_node::{Phase, Turn};
use std::alloc::AllocError;

impl<'p> Seat<'p> {
    ghost use Rattle.rank_machine.specs.Machine.{IsWantedBy};
    ghost use Rattle.rank_node.specs.Steps.{turn_of, refusal_of, takes_memory};
    ghost use Rattle.rank_node.specs.Replay.{replay_takes_memory, ShowsReplay};
    ghost use Rattle.ports.specs.Console.{after_line};

    /// The rank, which is at work, of which this was found and whose step isn't
    /// refused by name, makes one step. An `Err` means out of memory.
    #[tactic(auto, using(crate::proofs::Calls::Console::step_is))]
    pub fn step(&mut self, console: &mut ConsoleState, wanted: Wanted) -> Result<Turn, AllocError>
        requires work { IfLive self.old.live (λ v. v.left ≡ []) }
        requires allowed { IfLive self.old.live (λ v. refusal_of v.rank ≡ None) }
        requires wanted { IfLive self.old.live (λ v. IsWantedBy v.rank.machine wanted) }
        ensures turn { IfOk result (λ turn. IfLive self.old.live (λ v. turn ≡ turn_of v.rank)) }
        ensures ok { OnOk result (IfLive self.old.live (λ v. IsStep v self.new.live console.old console.new)) }
        ensures others { self.new ≡ with_live self.old self.new.live }
        ensures err { OnErr result (self.new ≡ self.old) }
        ensures memory { OnErr result (IfLive self.old.live (λ v. takes_memory v.rank ≡ true)) }
        ensures err_console { OnErr result (console.new ≡ console.old) }
    {
        let step = match &mut self.occupant {
            Some(Phase::Running(running)) => running.step_wanted(console, wanted),
            Some(Phase::Replaying(_) | Phase::Down(_)) | None => unreachable!(),
        };
        let Ok(turn) = step else {
            return Err(AllocError);
        };
        Ok(turn)
    }

    /// The rank, which replays and isn't refused, makes one step of its
    /// replay, and runs on where nothing is left then. An `Err` is want of
    /// memory.
    pub fn replay(&mut self, console: &mut ConsoleState) -> Result<Turn, AllocError>
        requires replays { IfLive self.old.live (λ v. v.left ≢ []) }
        requires fits { IfLive self.old.live IsFitting }
        ensures ok { IfOk result (λ turn. IfLive self.old.live (λ v. IsReplayed v turn self.new.live)) }
        ensures shown { OnOk result (IfLive self.old.live (λ v.
            ShowsReplay (λ old rank clock value new. new ≡ after_line old rank clock value) v.rank console.old console.new)) }
        ensures others { self.new ≡ with_live self.old self.new.live }
        ensures err { OnErr result (self.new ≡ self.old) }
        ensures memory { OnErr result (IfLive self.old.live (λ v. replay_takes_memory v.rank ≡ true)) }
        ensures err_console { OnErr result (console.new ≡ console.old) }
    {
        let step = match &mut self.occupant {
            Some(Phase::Replaying(replaying)) => replaying.step(console),
            Some(Phase::Running(_) | Phase::Down(_)) | None => unreachable!(),
        };
        let Ok(turn) = step else {
            return Err(AllocError);
        };
        let settled = take(&mut self.occupant).settled();
        put(&mut self.occupant, settled);
        Ok(turn)
    }
}
