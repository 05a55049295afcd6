//! Which lines of a program may send a message that is sought.
ghost use Rattle.std.specs.Prelude.{◌≡◌, false};
ghost use Rattle.rank_language.specs.Seen.{line_of, placed_of};
ghost use Rattle.explore.specs.Silences.{HasNoTag, IsNotTo, LineSendsNone};

use crate::silences::fixed::fixed;
use crate::silences::sought::Sought;
use rank_language::{Expression, Statement};

/// Whether the statement, made by the sender, may send such a message, as far as
/// can be seen. A collective doesn't: no receive and no probe of a program meets
/// its packets.
#[tactic(auto, using(crate::proofs::SilentLines::no_send, crate::proofs::SilentLines::other_send))]
pub fn may_send(sought: Sought, statement: &Statement) -> bool
    ensures { result ≡ false → LineSendsNone sought (line_of statement.now) }
{
    match statement {
        Statement::Send {
            destination,
            tag,
            ..
        } => may_be_to(sought, destination) && may_have_tag(sought.tag, tag),
        Statement::Declare(_)
        | Statement::DeclareArray(_)
        | Statement::Assign(..)
        | Statement::AssignItem(..)
        | Statement::If(..)
        | Statement::Else(_)
        | Statement::EndIf
        | Statement::While(..)
        | Statement::EndWhile(_)
        | Statement::Receive { .. }
        | Statement::Probe { .. }
        | Statement::TryProbe { .. }
        | Statement::Print(_)
        | Statement::Collect(_) => false,
    }
}

// Whether a destination may be the receiver: any may whose value isn't the same all along.
#[tactic(auto, using(crate::proofs::SilentLines::not_to))]
fn may_be_to(sought: Sought, destination: &Expression) -> bool
    ensures { result ≡ false → IsNotTo sought (placed_of destination.now) }
{
    match fixed(destination, sought.sender, sought.ranks) {
        Some(rank) => rank == i64::from(sought.receiver),
        None => true,
    }
}

// Whether a tag may be the one that is sought. A number of the text is that number alone.
fn may_have_tag(sought: Option<u16>, tag: &Expression) -> bool
    ensures { result ≡ false → HasNoTag sought (placed_of tag.now) }
{
    let Some(sought) = sought else {
        return true;
    };
    match tag {
        Expression::Number(number) => i64::from(sought) == *number,
        Expression::Variable(_)
        | Expression::Item(..)
        | Expression::Reading(_)
        | Expression::Negation(_)
        | Expression::Operation(..)
        | Expression::Simple(..) => true,
    }
}

/// The tag of the statement, if it is a send whose tag stands as a number in the
/// text.
pub fn tag_of(statement: &Statement) -> Option<u16> {
    match statement {
        Statement::Send { tag, .. } => match tag {
            Expression::Number(number) => u16::try_from(*number).ok(),
            Expression::Variable(_)
            | Expression::Item(..)
            | Expression::Reading(_)
            | Expression::Negation(_)
            | Expression::Operation(..)
            | Expression::Simple(..) => None,
        },
        Statement::Declare(_)
        | Statement::DeclareArray(_)
        | Statement::Assign(..)
        | Statement::AssignItem(..)
        | Statement::If(..)
        | Statement::Else(_)
        | Statement::EndIf
        | Statement::While(..)
        | Statement::EndWhile(_)
        | Statement::Receive { .. }
        | Statement::Probe { .. }
        | Statement::TryProbe { .. }
        | Statement::Print(_)
        | Statement::Collect(_) => None,
    }
}
