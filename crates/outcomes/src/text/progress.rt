//! What the lines so far have of a rank.
ghost use Rattle.std.specs.Prelude.{◌≡◌, ℕ};
ghost use Rattle.outcomes.specs.Text.Texts.{after, entry_at, is_late, is_of_stranger, order_fault};

use crate::text::fault::OutcomeFaultKind;
use crate::text::form::LinePart;

/// What the lines so far have of a rank.
#[derive(Clone, Copy)]
pub(crate) struct RankSoFar {
    /// Of its last act, 0 if there is none.
    pub(crate) clock: u32,
    /// Whether its end stands there.
    pub(crate) ended: bool,
}

impl RankSoFar {
    /// The same after one line more.
    pub(crate) fn after(self, part: LinePart) -> RankSoFar
        ensures { (number rank : ℕ) → result ≡ after self (entry_at number rank part) }
    {
        match part {
            LinePart::Event { clock, .. } | LinePart::Print { clock, .. } => RankSoFar {
                clock,
                ended: self.ended,
            },
            LinePart::End(_) => RankSoFar {
                clock: self.clock,
                ended: true,
            },
        }
    }

    /// The fault of a line behind these.
    pub(crate) fn fault(self, part: LinePart) -> Option<OutcomeFaultKind>
        ensures { result ≡ order_fault self part }
    {
        if self.ended {
            return Some(OutcomeFaultKind::AfterEnd);
        }
        if is_late(self.clock, part) {
            return Some(OutcomeFaultKind::NotRising);
        }
        None
    }
}

fn is_late(last: u32, part: LinePart) -> bool
    ensures { result ≡ is_late last part }
{
    match part {
        LinePart::Event { clock, .. } | LinePart::Print { clock, .. } => clock <= last,
        LinePart::End(_) => false,
    }
}

/// Whether the line's source is none of so many ranks.
pub(crate) fn is_of_stranger(ranks: u8, part: LinePart) -> bool
    ensures { result ≡ is_of_stranger ranks part }
{
    match part {
        LinePart::Event { source, .. } => source >= u32::from(ranks),
        LinePart::Print { .. } | LinePart::End(_) => false,
    }
}
