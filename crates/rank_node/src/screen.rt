//! Where the prints of ranks are shown.
ghost use Rattle.std.specs.Prelude.{◌≡◌, ℕ, ℤ, OnOk, OnErr};

use std::alloc::AllocError;

/// What became of a line.
#[derive(Clone, Copy)]
pub enum Shown {
    /// The line is new.
    Shown,
    /// The line was shown before.
    Repeated,
}

/// Shows the lines of ranks.
pub trait Screen {
    /// The screen before and after a line of a rank with a clock and a value.
    ghost shows: { Self → ℕ → ℕ → ℤ → Self → Type 0 };

    /// Shows a line of a rank; `clock` is the rank's clock of the print.
    fn show(&mut self, rank: u8, clock: u32, value: i64) -> Result<Shown, AllocError>
        ensures ok { OnOk result (shows self.old rank clock value self.new) }
        ensures err { OnErr result (self.new ≡ self.old) };
}
