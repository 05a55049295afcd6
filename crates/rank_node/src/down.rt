//! A rank that is down, after a fail-stop crash.
ghost use Rattle.std.specs.Prelude.{◌≡◌};

use crate::running::Running;
use crate::stable::Stable;
use checkpoint::Shelf;
use std::marker::Model;

/// What is left of a rank that crashed. It must be restarted or retired.
pub struct Down<S: Shelf, D> {
    pub(crate) stable: Stable<S, D>,
}

impl<S: Shelf, D> Model for Down<S, D> {
    ghost use Rattle.rank_node.specs.Stored.{Stored};

    ghost Value = { Stored S D };

    ghost view = { λ d. d.stable };
}

impl<S: Shelf, D> Down<S, D> {
    /// A rank that is down, of which this is stable.
    pub fn of(stable: Stable<S, D>) -> Down<S, D>
        ensures { result ≡ stable }
    {
        Down { stable }
    }

    /// The rank stops for good.
    pub fn retire(self) -> Stable<S, D>
        ensures { result ≡ self }
    {
        let Down { stable } = self;
        stable
    }
}

impl<'p, S: Shelf, D> Running<'p, S, D> {
    /// The rank crashes: what is stable outlives it, and nothing else does. It takes no memory.
    pub fn crash(self) -> Down<S, D>
        ensures { result ≡ self.entry.stable }
    {
        Down::of(self.retire())
    }
}
