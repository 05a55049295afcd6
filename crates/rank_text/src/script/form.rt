//! The form of a line: `kill R at C` or `image R at C`.
ghost use Rattle.std.specs.Prelude.{◌≡◌};
ghost use Rattle.rank_text.specs.Lines.Numbers.{kept_of};
ghost use Rattle.rank_text.specs.Lines.Pieces.{words_of};
ghost use Rattle.rank_text.specs.Scripts.Form.{clock_of, form_of, order_of};
ghost use Rattle.rank_text.specs.Scripts.Seen.{form_seen};

use crate::lines::{decimal, next_word};
use crate::script::line::Order;

/// What a line says, whatever its numbers are; `u32::MAX` stands for each that
/// is greater.
#[derive(Clone, Copy)]
pub(crate) struct ScriptForm {
    pub(crate) order: Order,
    pub(crate) rank: u32,
    pub(crate) clock: u32,
}

/// The order that a word names.
fn order_of(word: &[u8]) -> Option<Order>
    ensures { result ≡ order_of word.now }
{
    if word == b"kill".as_slice() {
        return Some(Order::Kill);
    }
    if word == b"image".as_slice() {
        return Some(Order::Image);
    }
    None
}

/// The clock of a line of two words, `at C`.
fn clock_of(line: &[u8]) -> Option<u32>
    ensures { result ≡ kept_of (clock_of (words_of line.now)) }
{
    let (at, rest) = next_word(line)?;
    let (clock, rest) = next_word(rest)?;
    if at != b"at".as_slice() || next_word(rest).is_some() {
        return None;
    }
    decimal(clock)
}

/// The form of a line, if it has one.
pub(crate) fn form_of(line: &[u8]) -> Option<ScriptForm>
    ensures { result ≡ form_seen (form_of (words_of line.now)) }
{
    let (order, rest) = next_word(line)?;
    let (rank, rest) = next_word(rest)?;
    let order = order_of(order)?;
    let rank = decimal(rank)?;
    let clock = clock_of(rest)?;
    Some(ScriptForm { order, rank, clock })
}
