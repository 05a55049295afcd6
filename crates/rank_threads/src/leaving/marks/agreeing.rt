//! When two looks at all marks agree (termination detection by counting).
ghost use Rattle.std.specs.Prelude.{◌≡◌, ◌≢◌, true, false};
ghost use Rattle.std.specs.Option.{is_none};

use limits::MOST_RANKS;

/// What one look at all marks saw, where all were set.
#[derive(Clone, Copy)]
pub struct Look {
    pub marks: [u64; MOST_RANKS],
    /// How many frames all ranks have taken, as their marks say.
    pub taken: u64,
}

/// All ranks are at rest, and every frame that was put was taken. Only `agreed`
/// makes one.
#[derive(Clone, Copy)]
pub struct AllAtRest(());

/// Whether the marks that were seen are those of the first look, and so many
/// frames were taken as are put by now.
pub fn agreed(first: &Look, seen: &[u64; MOST_RANKS], put: u64) -> Option<AllAtRest>
    ensures agrees { is_none result ≡ false → (first.now.marks ≡ seen.now) × (put ≡ first.now.taken) }
    ensures differs { is_none result ≡ true → first.now.marks ≡ seen.now → put ≢ first.now.taken }
{
    if first.marks == *seen && put == first.taken {
        return Some(AllAtRest(()));
    }
    None
}
