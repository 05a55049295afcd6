//! Messages that were never received, with the lines at which they were sent.
ghost use Rattle.std.specs.Prelude.{◌≡◌, [], slice_index_or};
ghost use Rattle.runner.specs.Waits.{is_sent_by, is_tag};

use crash_free::{Leftover, MessageMark};
use limits::Heap;
use std::marker::Model;

/// A message that was never received, with the line at which it was sent, where
/// that is known.
#[derive(Clone, Copy)]
pub struct LinedLeftover {
    pub message: Leftover,
    pub line: Option<usize>,
}

/// What was never received in a run.
#[derive(Drop)]
pub struct LinedLeftovers {
    pub messages: Vec<LinedLeftover, Heap>,
}

impl Model for LinedLeftovers {
    ghost use Rattle.std.specs.Prelude.{List};
    ghost use Rattle.runner.specs.declared.explored.lined.LinedLeftover.{LinedLeftover};

    ghost Value = { List LinedLeftover };

    ghost view = { λ l. l.messages.items };
}

/// What was never received in runs that have an outcome.
#[derive(Drop)]
pub struct LinedOutcome {
    pub left: Vec<LinedLeftovers, Heap>,
}

impl Model for LinedOutcome {
    ghost use Rattle.std.specs.Prelude.{List};
    ghost use Rattle.runner.specs.declared.explored.lined.LinedLeftover.{LinedLeftover};

    ghost Value = { List (List LinedLeftover) };

    ghost view = { λ o. o.left.items };
}

/// What is listed of the outcome at this place; nothing if there is none.
pub fn left_at(lined: &[LinedOutcome], index: usize) -> &[LinedLeftovers]
    ensures { result.now ≡ slice_index_or lined.now index [] }
{
    match lined.get(index) {
        Some(outcome) => outcome.left.as_slice(),
        None => &[],
    }
}

/// Whether this rank sent the message by a send, not in a collective. While sends are
/// synchronous, it waits there.
pub fn is_sent_by(rank: usize, message: Leftover) -> bool
    ensures { result ≡ is_sent_by rank message }
{
    is_tag(message.mark) && usize::from(message.source) == rank
}

/// Whether the message is one of a send.
pub fn is_tag(mark: MessageMark) -> bool
    ensures { result ≡ is_tag mark }
{
    match mark {
        MessageMark::Tag(_) => true,
        MessageMark::Call { .. } => false,
    }
}
