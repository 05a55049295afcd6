//! Choices in a crash-free run that are made at once, and what refusals are called.

use crate::same::{holds, same};
use crash_free::{Choice, NotAllowed, Sim};
use event_logger::LogFault;
use limits::Heap;
use rank_language::Program;
use std::alloc::AllocError;
use std::fmt::Display;
use std::process::Abort;
use std::test::*;

/// Rank 0 sends 41 to rank 1, which prints one more.
const ONE_MESSAGE: &[u8] =
    b"var x\nif rank == 0\nsend 1, 7, 41\nelse\nrecv any, any, x\nprint x + 1\nend\n";

const NEXT: Choice = Choice::Next;

/// The only message of rank 0, and one that it doesn't send.
const FIRST: Choice = Choice::Take {
    source: 0,
    index: 1,
};

const SECOND: Choice = Choice::Take {
    source: 0,
    index: 2,
};

/// A message of a rank that there isn't.
const OF_NO_RANK: Choice = Choice::Take {
    source: 9,
    index: 1,
};

/// Choices of ranks, and the first one that is refused, with the number of the refusal; zeros for none.
type Made = (&'static [(u8, Choice)], (u64, u8));

/// Each of these goes on where the one before stopped.
static MADE: [Made; 9] = [
    (&[(0, NEXT), (0, NEXT), (1, NEXT), (1, NEXT)], (0, 0)),
    (&[(1, FIRST)], (0, 2)),
    (&[(0, NEXT), (0, NEXT), (0, NEXT), (1, NEXT)], (2, 3)),
    (&[(1, SECOND)], (0, 2)),
    (&[(1, OF_NO_RANK)], (0, 2)),
    (&[(1, Choice::Miss)], (0, 1)),
    (&[(1, NEXT)], (0, 1)),
    (&[(1, FIRST), (1, FIRST)], (1, 1)),
    (&[(1, NEXT), (1, NEXT), (1, NEXT)], (2, 3)),
];

fn are_made(rt: &impl Abort, sim: &mut Sim<'_>, made: &Made) {
    let (choices, (place, why)) = *made;
    assert!(rt; sim.are_of_ranks(choices), "each choice is of a rank");
    let (found, number) = match sim.run(choices) {
        Ok(()) => (0, 0),
        Err((at, why)) => (at as u64, why.number()),
    };
    same(rt, "where it stops", found, place);
    same(rt, "why it stops", u64::from(number), u64::from(why));
}

#[test]
fn choices_are_made_up_to_the_first_that_is_refused(rt: HostRuntime) -> Result<(), Fail> {
    let program = Program::parse(rt.alloc(), ONE_MESSAGE)?;
    let mut sim = Sim::new(rt.alloc(), &program, 2)?;
    for made in &MADE {
        are_made(&rt, &mut sim, made);
    }
    Ok(())
}

static OF_CHOICES: [(NotAllowed, &str); 4] = [
    (NotAllowed::WantsOther, "the rank wants something else"),
    (NotAllowed::NotEligible, "the message may not be taken"),
    (NotAllowed::Ended, "the rank has ended"),
    (NotAllowed::Memory, "out of memory"),
];

static OF_APPENDS: [(LogFault, &str); 3] = [
    (LogFault::Full, "the row is full"),
    (
        LogFault::Order,
        "the receiver's clock isn't above the last event's",
    ),
    (LogFault::Memory, "out of memory"),
];

fn is_said(
    rt: &impl Abort,
    alloc: Heap,
    refusal: &impl Display,
    want: &str,
) -> Result<(), AllocError> {
    let said = format!(in alloc; "{refusal}")?;
    holds(rt, want, said.as_str() == want);
    Ok(())
}

#[test]
fn refusals_in_words(rt: HostRuntime) -> Result<(), AllocError> {
    for row in &OF_CHOICES {
        let (refusal, want) = *row;
        is_said(&rt, rt.alloc(), &refusal, want)?;
    }
    for row in &OF_APPENDS {
        let (fault, want) = *row;
        is_said(&rt, rt.alloc(), &fault, want)?;
    }
    Ok(())
}
