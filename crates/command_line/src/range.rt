//! Which numbers an option may be given, and which one stands for it where it isn't there.
//!
//! `clap` refuses other numbers and shows defaults by the same constants by which they are read.
ghost use Rattle.std.specs.Prelude.{IfSome, option_map};
ghost use Rattle.command_line.specs.Ranges.{IsNumberIn};

use crate::words::number_in;
use clap::{Arg, value_parser};
use limits::MOST_RANKS;

/// The numbers of an option.
#[derive(Clone, Copy)]
pub struct Range {
    pub least: u32,
    pub most: u32,
    /// The number of an option that isn't there.
    pub default: Option<u32>,
}

/// A range whose default is shown by helps.
#[derive(Clone, Copy)]
pub struct ShownRange {
    pub range: Range,
    pub default: &'static str,
}

/// The range from `$least` to `$most` with this default.
macro_rules! shown {
    ($least:expr, $most:expr, $default:literal) => {
        $crate::range::ShownRange {
            range: $crate::range::Range {
                least: $least,
                most: $most,
                default: Some($default),
            },
            default: stringify!($default),
        }
    };
}

pub(crate) use shown;

/// No option is given a greater number.
pub const MOST: u32 = 1000000000;

/// 1 to `MOST`.
pub const FROM_ONE: Range = Range {
    least: 1,
    most: MOST,
    default: None,
};

/// Numbers of ranks.
pub const RANKS_RANGE: Range = Range {
    least: 1,
    most: MOST_RANKS as u32,
    default: None,
};

impl Range {
    /// The number that the text spells, or the default without a text, if it is in the range.
    #[tactic(auto, using(crate::proofs::WordLemmas::spelled))]
    pub fn number(self, text: Option<&str>) -> Option<u32>
        ensures { IfSome result (λ number. IsNumberIn self (option_map (λ t. t.now) text.entry) number) }
    {
        let read = match text {
            Some(text) => number_in(text),
            None => self.default,
        };
        match read {
            Some(number) if self.least <= number && number <= self.most => Some(number),
            _ => None,
        }
    }

    /// The same, if it is of 8 bits.
    pub fn small(self, text: Option<&str>) -> Option<u8>
        ensures { IfSome result (λ number. IsNumberIn self (option_map (λ t. t.now) text.entry) number) }
    {
        match self.number(text) {
            Some(number) => u8::try_from(number).ok(),
            None => None,
        }
    }

    /// The option with this range, for `clap`.
    pub fn made<'a>(self, option: Arg<'a>) -> Arg<'a> {
        let numbers = i64::from(self.least)..=i64::from(self.most);
        option.value_parser(value_parser!(u32).range(numbers))
    }
}
