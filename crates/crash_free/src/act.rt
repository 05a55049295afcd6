//! Acts, and the runs that are made of them.
ghost use Rattle.std.specs.Prelude.{◌≡◌, IfOk};
ghost use Rattle.crash_free.specs.Seen.{act_of};

use crate::choice::Choice;
use matching::{Context, PacketItems};
use std::alloc::AllocError;
use std::marker::Model;

/// What a rank does that another can see.
///
/// A message is named by its place among those that its source sent to this
/// rank, from 1.
#[derive(Drop)]
pub enum Act {
    Sends {
        dest: u8,
        context: Context,
        tag: u16,
        items: PacketItems,
    },
    /// A receive took the message.
    Takes {
        source: u8,
        place: u64,
    },
    /// A probe found the message.
    Hits {
        source: u8,
        place: u64,
    },
    /// A probe that doesn't wait found none.
    Misses,
    Prints(i64),
}

impl Act {
    ghost use Rattle.crash_free.specs.Sim.{choice_of};

    /// The choice that makes this act, if it may be made.
    pub fn choice(&self) -> Choice
        ensures { result ≡ choice_of (act_of self.now) }
    {
        match self {
            Act::Sends { .. } | Act::Prints(_) => Choice::Next,
            Act::Takes { source, place } | Act::Hits { source, place } => Choice::Take {
                source: u32::from(*source),
                index: *place,
            },
            Act::Misses => Choice::Miss,
        }
    }
}

/// An act of a run, with the rank that made it.
#[derive(Drop)]
pub struct Passed {
    pub rank: u8,
    pub act: Act,
}

impl Model for Passed {
    ghost use Rattle.crash_free.specs.Runs as runs;
    ghost use Rattle.crash_free.specs.Seen.{act_of};

    ghost Value = { runs.Passed };

    ghost view = { λ p. record { rank = p.rank; act = act_of p.act } };
}

// Runs are copied by the calls of `std`.
impl Clone for Passed {
    ghost is_clone = { λ passed clone. clone ≡ passed };

    fn clone(&self) -> Result<Passed, AllocError> {
        Ok(Passed {
            rank: self.rank,
            act: copied(&self.act)?,
        })
    }
}

impl Passed {
    ghost use Rattle.rank_machine.specs.Acts as acts;

    pub(crate) fn sends(
        rank: u8,
        dest: u8,
        context: Context,
        tag: u16,
        items: PacketItems,
    ) -> Passed
        ensures { result ≡ record { rank = rank; act = acts.sends dest context tag items.items } }
    {
        Passed {
            rank,
            act: Act::Sends {
                dest,
                context,
                tag,
                items,
            },
        }
    }

    pub(crate) fn takes(rank: u8, source: u8, place: u64) -> Passed
        ensures { result ≡ record { rank = rank; act = acts.takes source place } }
    {
        Passed {
            rank,
            act: Act::Takes { source, place },
        }
    }

    pub(crate) fn hits(rank: u8, source: u8, place: u64) -> Passed
        ensures { result ≡ record { rank = rank; act = acts.hits source place } }
    {
        Passed {
            rank,
            act: Act::Hits { source, place },
        }
    }

    pub(crate) fn misses(rank: u8) -> Passed
        ensures { result ≡ record { rank = rank; act = acts.misses } }
    {
        Passed {
            rank,
            act: Act::Misses,
        }
    }

    pub(crate) fn prints(rank: u8, value: i64) -> Passed
        ensures { result ≡ record { rank = rank; act = acts.prints value } }
    {
        Passed {
            rank,
            act: Act::Prints(value),
        }
    }
}

// The same act, in memory of its own.
fn copied(act: &Act) -> Result<Act, AllocError>
    ensures { IfOk result (λ copy. act_of copy ≡ act_of act.now) }
{
    Ok(match act {
        Act::Sends {
            dest,
            context,
            tag,
            items,
        } => Act::Sends {
            dest: *dest,
            context: *context,
            tag: *tag,
            items: PacketItems::from_slice(*items.allocator(), items.as_slice())?,
        },
        Act::Takes { source, place } => Act::Takes {
            source: *source,
            place: *place,
        },
        Act::Hits { source, place } => Act::Hits {
            source: *source,
            place: *place,
        },
        Act::Misses => Act::Misses,
        Act::Prints(value) => Act::Prints(*value),
    })
}
