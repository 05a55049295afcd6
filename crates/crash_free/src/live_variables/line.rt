//! What a statement reads, and what it surely writes.
ghost use Rattle.std.specs.Prelude.{◌≡◌};
ghost use Rattle.rank_language.specs.Seen.{pattern_of, payload_of, buffer_of, collective_of, line_of};
ghost use Rattle.crash_free.specs.LiveVariables.Names.{pattern_reads, payload_reads, is_buffer, collective_reads};
ghost use Rattle.crash_free.specs.LiveVariables.Live.{line_reads, line_writes};
ghost use Rattle.crash_free.specs.LiveVariables.Seen.{name_of};

use crate::live_variables::name::StoredName;
use rank_language::{Buffer, Collective, Pattern, Payload, Statement};

/// Whether the statement reads it.
pub fn reads(name: StoredName, statement: &Statement) -> bool
    ensures { result ≡ line_reads (name_of name) (line_of statement.now) }
{
    match statement {
        Statement::Declare(_)
        | Statement::DeclareArray(_)
        | Statement::Else(_)
        | Statement::EndIf
        | Statement::EndWhile(_) => false,
        Statement::Assign(_, value) | Statement::If(value, _) | Statement::While(value, _) => {
            name.is_in(value)
        }
        Statement::AssignItem(_, index, value) => name.is_in(index) || name.is_in(value),
        Statement::Send {
            destination,
            tag,
            payload,
        } => name.is_in(destination) || name.is_in(tag) || payload_reads(name, payload),
        Statement::Receive { source, tag, .. }
        | Statement::Probe { source, tag }
        | Statement::TryProbe { source, tag, .. } => {
            pattern_reads(name, source) || pattern_reads(name, tag)
        }
        Statement::Print(value) => name.is_in(value),
        Statement::Collect(collective) => collective_reads(name, collective),
    }
}

/// Whether the statement surely writes it, if it is done without a fault.
pub fn writes(name: StoredName, statement: &Statement) -> bool
    ensures { result ≡ line_writes (name_of name) (line_of statement.now) }
{
    match statement {
        Statement::Assign(place, _) => name.is_place(*place),
        Statement::Receive { buffer, .. } => is_buffer(name, buffer) || name.is_status(),
        Statement::Probe { .. } => name.is_status(),
        Statement::TryProbe { flag, .. } => name.is_place(*flag),
        Statement::Declare(_)
        | Statement::DeclareArray(_)
        | Statement::AssignItem(..)
        | Statement::If(..)
        | Statement::Else(_)
        | Statement::EndIf
        | Statement::While(..)
        | Statement::EndWhile(_)
        | Statement::Send { .. }
        | Statement::Print(_)
        | Statement::Collect(_) => false,
    }
}

fn pattern_reads(name: StoredName, pattern: &Pattern) -> bool
    ensures { result ≡ pattern_reads (name_of name) (pattern_of pattern.now) }
{
    match pattern {
        Pattern::Any => false,
        Pattern::Value(value) => name.is_in(value),
    }
}

fn payload_reads(name: StoredName, payload: &Payload) -> bool
    ensures { result ≡ payload_reads (name_of name) (payload_of payload.now) }
{
    match payload {
        Payload::One(value) => name.is_in(value),
        Payload::All(_) => false,
    }
}

fn is_buffer(name: StoredName, buffer: &Buffer) -> bool
    ensures { result ≡ is_buffer (name_of name) (buffer_of buffer.now) }
{
    match buffer {
        Buffer::Variable(place) => name.is_place(*place),
        Buffer::Array(_) => false,
    }
}

fn collective_reads(name: StoredName, collective: &Collective) -> bool
    ensures { result ≡ collective_reads (name_of name) (collective_of collective.now) }
{
    match collective {
        Collective::Barrier => false,
        Collective::Broadcast { root, buffer } => name.is_in(root) || is_buffer(name, buffer),
        Collective::Reduce { root, value, .. } => name.is_in(root) || name.is_in(value),
    }
}
