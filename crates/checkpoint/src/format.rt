//! The formats of an image's bytes.
ghost use Rattle.std.specs.Prelude.{◌≡◌};
ghost use Rattle.checkpoint.specs.Spelling.{number_of};
ghost use Rattle.checkpoint.specs.Reading.{most_ranks_in};

use limits::{MOST_RANKS, MOST_RANKS_OF_FORMAT_1};

/// The version of the event words that a rank logs and replays.
pub const EVENT_VERSION: u8 = 2;

/// In which format an image is spelled. Both are read, and the second is written.
#[derive(Clone, Copy)]
pub enum Format {
    /// Says nothing of event words, and has few ranks.
    One,
    /// Names the version of the event words that are logged behind it.
    Two,
}

impl Format {
    /// The number with which an image of this format begins.
    pub fn number(self) -> u8
        ensures { result ≡ number_of self }
    {
        match self {
            Format::One => 1,
            Format::Two => 2,
        }
    }

    /// The most ranks of a run that has images of this format.
    pub fn most_ranks(self) -> usize
        ensures { result ≡ most_ranks_in self }
    {
        match self {
            Format::One => MOST_RANKS_OF_FORMAT_1,
            Format::Two => MOST_RANKS,
        }
    }
}
