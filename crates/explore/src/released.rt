//! Which ranks no send holds.
ghost use Rattle.std.specs.Prelude.{◌≡◌, ◌<◌, true, false, length};
ghost use Rattle.explore.specs.Sending.{AreReceived, AreReceivedBy, IsReleasedAt};

use crate::send_mode::SendMode;
use crash_free::Sim;
use matching::{Context, Selector};

/// Names each point-to-point message.
const ANY: Selector = Selector {
    context: Context::PointToPoint,
    source: None,
    tag: None,
};

/// Whether no send holds this rank.
pub fn is_released(mode: SendMode, sim: &Sim<'_>, rank: u8) -> bool
    requires { rank < length sim.now.machines }
    ensures yes { result ≡ true → IsReleasedAt mode sim.now rank }
    ensures no { result ≡ false → IsReleasedAt mode sim.now rank → ⊥ }
{
    match mode {
        SendMode::Buffered => true,
        SendMode::Synchronous => are_received(sim, rank),
    }
}

// Whether all that this rank sent is received.
fn are_received(sim: &Sim<'_>, rank: u8) -> bool
    requires { rank < length sim.now.machines }
    ensures yes { result ≡ true → AreReceived (length sim.now.machines) sim.now.run rank }
    ensures no { result ≡ false → AreReceived (length sim.now.machines) sim.now.run rank → ⊥ }
{
    let ranks = sim.ranks();
    let mut receiver = 0;
    while receiver < ranks {
        if !are_received_by(sim, rank, receiver) {
            return false;
        }
        receiver += 1;
    }
    true
}

// Whether all that this rank sent to the receiver is received.
fn are_received_by(sim: &Sim<'_>, rank: u8, receiver: u8) -> bool
    requires rank { rank < length sim.now.machines }
    requires receiver { receiver < length sim.now.machines }
    ensures yes { result ≡ true → AreReceivedBy sim.now.run rank receiver }
    ensures no { result ≡ false → AreReceivedBy sim.now.run rank receiver → ⊥ }
{
    match sim.eligible(receiver, &ANY, rank) {
        None => true,
        Some(_) => false,
    }
}
