//! Expressions as a text writes them, with names.
use crate::grammar::name::Name;
use crate::grammar::token::{Operator, Reading};
use limits::Heap;

/// An expression as it is written: what it reads is named.
///
/// It nests as deeply as its line, so what walks it recursively needs some
/// 100 bytes of stack for each byte of the line; dropping it does.
#[derive(Drop)]
pub enum Written {
    /// A number, one above 9223372036854775807 kept as 9223372036854775808.
    Number(u64),
    Variable(Name),
    /// An item of an array, by its index.
    Item(Name, Box<Written, Heap>),
    Reading(Reading),
    Negation(Box<Written, Heap>),
    Operation(Operator, Box<Written, Heap>, Box<Written, Heap>),
}
