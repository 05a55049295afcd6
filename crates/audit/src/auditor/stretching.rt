//! Who makes the steps of ranks that stand before long stretches of steps of
//! their own: each rank when it is its turn, or all of them side by side.
ghost use Rattle.std.specs.Prelude.{◌≡◌, ◌<◌, length};
ghost use Rattle.std.specs.Thread.{IsSync};
ghost use Rattle.crash_free.specs.Sim.{Simulates};
ghost use Rattle.crash_free.specs.SideBySide.{GoSideBySide};

use crash_free::Sim;
use std::thread::Threads;

/// Makes steps of ranks that stand before long stretches.
pub trait Stretching {
    /// What it takes to make them.
    ghost can: { Self → Type 0 };

    /// May make steps of their own of ranks, of none more than it has left.
    /// `ranks` says how many of them stand before a long stretch; nothing but the
    /// number of threads depends on it.
    fn stretch(&self, sim: &mut Sim<'_>, ranks: usize, left: &mut [u32])
        requires can { can self.now }
        requires some { 0 < ranks }
        requires width { length left.old ≡ length sim.old.machines }
        requires stands { Simulates sim.old }
        ensures inside { GoSideBySide sim.old left.old left.new sim.new }
        ensures stands { Simulates sim.new };
}

/// Makes none, so that each rank makes its own when it is its turn.
#[derive(Drop)]
pub struct InTurn;

impl Stretching for InTurn {
    ghost can = { λ _. Unit {0} };

    #[tactic(auto, using(crate::proofs::Stretching::side_by_side_none))]
    fn stretch(&self, _sim: &mut Sim<'_>, _ranks: usize, _left: &mut [u32]) {}
}

/// Makes those of all ranks side by side, on threads of a handle.
#[derive(Drop)]
pub struct SideBySide<'r, R: Threads + Sync> {
    pub rt: &'r R,
}

impl<R: Threads + Sync> Stretching for SideBySide<'_, R> {
    // threads may share the handle
    ghost can = { λ _. IsSync R.row };

    #[tactic(auto, using(crate::proofs::Stretching::side_by_side_none))]
    fn stretch(&self, sim: &mut Sim<'_>, ranks: usize, left: &mut [u32]) {
        match sim.stride_all(self.rt, ranks, left) {
            Ok(()) => {}
            // there was no memory for it, so it is done in turn
            Err(_) => {}
        }
    }
}
