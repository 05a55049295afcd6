//! All ranks are told to leave, as one of them can't go on, or as all turns are used up.
ghost use Rattle.std.specs.Prelude.{◌≡◌, ◌≤◌, Some, IfSome};

use crate::report::RunFault;
use crate::shared::Shared;
use crate::tally::Tally;
use rank_node::NodeFault;
use std::sync::{OnceToken, Wait};

/// All ranks are told to leave: their flag is set, which the token alone shows. It
/// must be spent, and only `Tally::refuse` can: who tells them notes why, so that
/// the run has no report.
pub struct StopToken<'a> {
    flag: OnceToken<'a, ()>,
    why: NodeFault,
}

/// All ranks were told to leave: their flag is set, which the token alone shows.
#[derive(Drop)]
pub struct ToldToLeave<'a> {
    flag: OnceToken<'a, ()>,
}

/// The turns of a schedule are used up, and not all ranks have left. It must be
/// spent, which is to say why the run has no report.
pub struct OutOfTurns(());

impl OutOfTurns {
    /// So many turns were made, of at most so many.
    pub fn after(_made: u64, _most: u64) -> OutOfTurns
        requires { _most ≤ _made }
    {
        OutOfTurns(())
    }

    /// Why such a run has no report. No other call spends the token.
    pub fn fault(self) -> RunFault
        ensures { result ≡ RunFault.OutOfTurns }
    {
        let OutOfTurns(()) = self;
        RunFault::OutOfTurns
    }
}

impl<'a, H> Shared<'a, H> {
    /// All ranks are to leave, as one can't go on. The call that notes a fault of
    /// a rank takes what this answers, which must be spent.
    pub fn stop_all<W: Wait>(&self, rt: &W, why: NodeFault) -> StopToken<'a>
        ensures set { result.flag.of ≡ self.now.stop.now.id }
        ensures why { result.why ≡ why }
    {
        let stop = self.stop;
        let flag = stop.init(rt, || ());
        StopToken { flag, why }
    }

    /// All ranks are to leave, as the turns of their schedule are used up.
    pub fn end_all<W: Wait>(&self, rt: &W, _: &OutOfTurns) -> ToldToLeave<'a>
        ensures set { result.flag.of ≡ self.now.stop.now.id }
    {
        let stop = self.stop;
        let told = stop.init(rt, || ());
        ToldToLeave { flag: told }
    }

    /// Whether all ranks are to leave.
    pub fn stopped(&self) -> Option<ToldToLeave<'a>>
        ensures set { IfSome result (λ stopped. stopped.flag.of ≡ self.now.stop.now.id) }
    {
        let stop = self.stop;
        match stop.witness() {
            Some(flag) => Some(ToldToLeave { flag }),
            None => None,
        }
    }
}

impl Tally {
    /// The rank can't go on, and all were told to leave.
    pub fn refuse<'s>(&mut self, stop: StopToken<'s>) -> ToldToLeave<'s>
        ensures fault { self.new ≡ record self.old { fault = Some stop.entry.why } }
        ensures set { result.flag.of ≡ stop.entry.flag.of }
    {
        let StopToken { flag, why } = stop;
        self.fault = Some(why);
        ToldToLeave { flag }
    }
}
