//! Clocks, ranks and printed values as words spell them.
ghost use Rattle.std.specs.Prelude.{◌≡◌, IfSome};
ghost use Rattle.outcomes.specs.Text.Numbers.{clock_in, negative, positive, value_in};
ghost use Rattle.event_logger.specs.Sequential.Event.{IsClock};

use limits::GREATEST_CLOCK;
use rank_text::lines::{decimal, wide_decimal};

/// The clock that the word spells, if a rank can have it.
pub(crate) fn clock_in(word: &[u8]) -> Option<u32>
    ensures value { result ≡ clock_in word.now }
    ensures clock { IfSome result IsClock }
{
    let clock = decimal(word)?;
    if clock < 1 || GREATEST_CLOCK < clock {
        return None;
    }
    Some(clock)
}

/// The signed number of 64 bits that the word spells.
pub(crate) fn value_in(word: &[u8]) -> Option<i64>
    ensures { result ≡ value_in word.now }
{
    match word {
        [b'-', digits @ ..] => negative(wide_decimal(digits)?),
        _ => positive(wide_decimal(word)?),
    }
}

fn positive(number: u64) -> Option<i64>
    ensures { result ≡ positive number }
{
    if number > 9_223_372_036_854_775_807 {
        return None;
    }
    Some(number as i64)
}

fn negative(number: u64) -> Option<i64>
    ensures { result ≡ negative number }
{
    if number > 9_223_372_036_854_775_808 {
        return None;
    }
    if number == 9_223_372_036_854_775_808 {
        return Some(i64::MIN);
    }
    Some(-(number as i64))
}
