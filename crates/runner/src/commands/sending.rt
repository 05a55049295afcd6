//! By which mode of sends a search is made.
ghost use Rattle.std.specs.Prelude.{◌≡◌};
ghost use Rattle.runner.specs.Modes.{mode_of};

use explore::SendMode;

/// Sends are buffered, unless they are to be synchronous.
pub fn mode_of(synchronous: bool) -> SendMode
    ensures { result ≡ mode_of synchronous }
{
    if synchronous {
        SendMode::Synchronous
    } else {
        SendMode::Buffered
    }
}
