//! The statement of a line, before the blocks and the declarations are known.

use crate::grammar::name::Name;
use crate::grammar::token::Reduction;
use crate::grammar::written::Written;

/// The source or the tag of a receive or a probe.
#[derive(Drop)]
pub enum Pattern {
    Any,
    Value(Written),
}

/// What a send gives.
#[derive(Drop)]
pub enum Payload {
    /// A name by itself: all items of an array, or a variable.
    Lone(Name),
    One(Written),
}

/// The statement of a line, before the blocks and the declarations are known.
#[derive(Drop)]
pub enum Form {
    Var(Name),
    /// An array and the number of its items, one above 9223372036854775807 kept as
    /// 9223372036854775808.
    Array(Name, u64),
    /// A variable and its new value.
    Let(Name, Written),
    /// An item of an array, by its index, and its new value.
    LetItem(Name, Written, Written),
    If(Written),
    Else,
    End,
    While(Written),
    /// Destination, tag and payload.
    Send(Written, Written, Payload),
    /// Source, tag and buffer.
    Recv(Pattern, Pattern, Name),
    /// Source and tag.
    Probe(Pattern, Pattern),
    /// Source, tag and flag.
    TryProbe(Pattern, Pattern, Name),
    Print(Written),
    Barrier,
    /// Root and buffer.
    Bcast(Written, Name),
    /// Reduction, root, value and the root's variable.
    Reduce(Reduction, Written, Written, Name),
}
