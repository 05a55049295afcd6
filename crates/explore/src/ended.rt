//! Which ranks have ended.
ghost use Rattle.std.specs.Prelude.{◌≡◌, ◌<◌, true, length};
ghost use Rattle.crash_free.specs.Wanted.{WantsAt};
ghost use Rattle.explore.specs.Making.{HasEndedAt};

use crash_free::Sim;
use rank_machine::Want;

/// Whether the rank has ended, and so makes no step more. It takes less than to find out whether a
/// send holds it.
pub fn has_ended(sim: &Sim<'_>, rank: u8) -> bool
    requires { rank < length sim.now.machines }
    ensures { result ≡ true → HasEndedAt sim.now.machines rank }
{
    match sim.wants(rank) {
        Want::Halted => true,
        Want::Faulted(_) => true,
        Want::Internal
        | Want::Send { .. }
        | Want::Receive(_)
        | Want::Probe(_)
        | Want::TryProbe(_)
        | Want::Print(_) => false,
    }
}
