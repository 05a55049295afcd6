//! Where a run stood some time ago, to be met again.
ghost use Rattle.std.specs.Prelude.{◌≡◌, true, IfOk, Ok, OnOk, length};
ghost use Rattle.crash_free.specs.LiveVariables.Live.{IsTableOf};
ghost use Rattle.explore.specs.Cycles.{MayGoOnForEver, StandsIn, WentOnFrom};
ghost use Rattle.explore.specs.Sending.{HasRunUnder};

use crate::cycle::Cycle;
use crate::send_mode::SendMode;
use crash_free::live_variables::Live;
use crash_free::{Sim, Standing};
use limits::Heap;
use std::alloc::AllocError;

/// Where a run stood some time ago. It is renewed after twice as many rounds each time, so a cycle
/// is met in a few times the rounds that it takes, whenever it begins (Brent 1980).
#[derive(Drop)]
pub struct CycleMark {
    standing: Standing,
    // how many acts the run had made there
    made: usize,
    // where the run stands now
    now: Standing,
    // how many rounds were made since, and after how many the mark is renewed
    rounds: u32,
    most: u32,
    /// The statements at which ranks went on since.
    pub positions: Vec<usize, Heap>,
}

impl CycleMark {
    /// Where the simulation stands. An `Err` means out of memory.
    pub fn new(alloc: Heap, sim: &Sim<'_>, live: &Live) -> Result<CycleMark, AllocError>
        requires { IsTableOf sim.now.program live.now }
        ensures { IfOk result (λ mark. WentOnFrom sim.now mark.standing mark.made) }
    {
        let mut standing = Standing::new(alloc);
        write_ranks(sim, live, &mut standing)?;
        Ok(CycleMark {
            standing,
            made: sim.acts().len(),
            now: Standing::new(alloc),
            rounds: 0,
            most: 1,
            positions: Vec::new(alloc),
        })
    }

    /// Whether the simulation stands there again, after more acts. An `Err` means out of memory.
    pub fn is_met(&mut self, mode: SendMode, sim: &Sim<'_>, live: &Live) -> Result<bool, AllocError>
        requires table { IsTableOf sim.now.program live.now }
        requires is_run { HasRunUnder mode sim.now }
        requires from { WentOnFrom sim.now self.old.standing self.old.made }
        ensures yes { result ≡ Ok true → MayGoOnForEver mode sim.now.program (length sim.now.machines) }
        ensures standing { self.new.standing ≡ self.old.standing }
        ensures made { self.new.made ≡ self.old.made }
    {
        write_ranks(sim, live, &mut self.now)?;
        Ok(sim.acts().len() > self.made && self.now.is_same(&self.standing))
    }

    /// Counts a round, and is renewed if it is time, with where the simulation stands, as `is_met`
    /// wrote it. An `Err` means out of memory.
    pub fn pass(&mut self, sim: &Sim<'_>, live: &Live) -> Result<(), AllocError>
        requires table { IsTableOf sim.now.program live.now }
        requires from { WentOnFrom sim.now self.old.standing self.old.made }
        ensures { OnOk result (WentOnFrom sim.now self.new.standing self.new.made) }
    {
        self.rounds = self.rounds.saturating_add(1);
        if self.rounds < self.most {
            return Ok(());
        }
        write_ranks(sim, live, &mut self.standing)?;
        self.made = sim.acts().len();
        self.rounds = 0;
        self.most = self.most.saturating_mul(2);
        self.positions.clear();
        Ok(())
    }

    /// The cycle that the simulation made since.
    pub fn into_cycle(self, sim: &Sim<'_>) -> Cycle
        ensures before { result.before ≡ self.made }
    {
        let CycleMark {
            standing: _,
            made,
            now: _,
            rounds: _,
            most: _,
            positions,
        } = self;
        Cycle {
            before: made,
            acts: sim.acts().len().saturating_sub(made),
            positions,
        }
    }
}

// Writes where all ranks stand, in place of what was there. An `Err` means out of memory.
fn write_ranks(sim: &Sim<'_>, live: &Live, out: &mut Standing) -> Result<(), AllocError>
    requires { IsTableOf sim.now.program live.now }
    ensures { OnOk result (StandsIn sim.now out.new sim.now.run) }
{
    // its contract says what the parts of the ranks tell; the length itself is left out
    sim.write_length(out)?;
    out.clear();
    let ranks = sim.ranks();
    let mut rank = 0;
    while rank < ranks {
        sim.write_own(live, rank, out)?;
        sim.write_mail(rank, out)?;
        rank += 1;
    }
    Ok(())
}
