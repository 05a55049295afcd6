//! Statements with the positions that they lead to.
ghost use Rattle.std.specs.Prelude.{◌≡◌, ◌-◌, ◌^◌, ◌<◌};
ghost use Rattle.rank_language.specs.Block.{next_position};
ghost use Rattle.rank_language.specs.Seen.{line_of};

use crate::expression::Expression;
use rank_text::grammar::Reduction;

/// The source or the tag that a receive or a probe asks for.
#[derive(Drop)]
pub enum Pattern {
    Any,
    Value(Expression),
}

/// What a send gives.
#[derive(Drop)]
pub enum Payload {
    /// The value as one item.
    One(Expression),
    /// All items of an array, by its place in the order of declaration.
    All(usize),
}

/// Where a receive puts the items.
#[derive(Drop)]
pub enum Buffer {
    /// A variable, by its place in the order of declaration.
    Variable(usize),
    /// An array, by its place in the order of declaration; the items go to its beginning.
    Array(usize),
}

/// A statement that all ranks make together (MPI 1.1, sections 4.3, 4.4 and 4.9.1).
#[derive(Drop)]
pub enum Collective {
    Barrier,
    /// The root's items of the buffer go to the buffers of all ranks.
    Broadcast {
        root: Expression,
        buffer: Buffer,
    },
    /// The values of all ranks, taken together, go into the variable `place` of the root.
    Reduce {
        reduction: Reduction,
        root: Expression,
        value: Expression,
        place: usize,
    },
}

/// A statement of a program, which has a position of its own.
#[derive(Drop)]
pub enum Statement {
    /// A variable by its place: it is 0 from the rank's beginning.
    Declare(usize),
    /// An array by its place: its items are 0 from the rank's beginning.
    DeclareArray(usize),
    /// A variable by its place, and its new value.
    Assign(usize, Expression),
    /// An array by its place, the index of an item from 0, and the item's new value.
    AssignItem(usize, Expression, Expression),
    /// What is tested, and the position that follows where it is 0.
    If(Expression, usize),
    /// Reached from above, it leads past its `end`, to this position.
    Else(usize),
    /// The `end` of an `if`.
    EndIf,
    /// What is tested, and the position behind its `end`, which follows where it is 0.
    While(Expression, usize),
    /// The `end` of a `while`, and the position of that `while`, which follows.
    EndWhile(usize),
    Send {
        destination: Expression,
        tag: Expression,
        payload: Payload,
    },
    Receive {
        source: Pattern,
        tag: Pattern,
        buffer: Buffer,
    },
    /// It shows the packet that a receive would take, and leaves it.
    Probe {
        source: Pattern,
        tag: Pattern,
    },
    /// A probe that doesn't wait: the variable `flag`, by its place, gets 1 where a packet is shown, else 0.
    TryProbe {
        source: Pattern,
        tag: Pattern,
        flag: usize,
    },
    Print(Expression),
    Collect(Collective),
}

impl Statement {
    /// The position after a statement that stands at a position, where what it tests isn't 0 as `truth` says.
    pub fn next_position(&self, position: usize, truth: bool) -> usize
        requires { position < 2 ^ 64 - 1 }
        ensures { result ≡ next_position (line_of self.now) position truth }
    {
        match self {
            Statement::If(_, otherwise) | Statement::While(_, otherwise) => {
                if truth { position + 1 } else { *otherwise }
            }
            Statement::Else(after) => *after,
            Statement::EndWhile(start) => *start,
            Statement::Declare(_) | Statement::DeclareArray(_) => position + 1,
            Statement::Assign(..) | Statement::AssignItem(..) => position + 1,
            Statement::Send { .. } | Statement::Receive { .. } => position + 1,
            Statement::Probe { .. } | Statement::TryProbe { .. } => position + 1,
            Statement::Print(_) | Statement::EndIf => position + 1,
            Statement::Collect(_) => position + 1,
        }
    }
}
