//! Rows of the logger of one thread: one that is full, and the order of clocks.

use crate::same::{is_answered, same};
use event_logger::{Event, Kind, LogFault, LoggerState};
use limits::Heap;
use std::process::Abort;
use std::test::*;

const GREATEST: u32 = 268_435_455;

/// An event that rank 1 sent, or of misses: its kind, the sender's clock and the receiver's.
type Given = (Kind, u32, u32);

// A rank's event is appended.
fn append(
    rt: &impl Abort,
    state: &mut LoggerState,
    who: usize,
    given: Given,
) -> Result<u32, LogFault> {
    let (kind, sender_clock, clock) = given;
    let event = Event::new(kind, 0, sender_clock, clock).expect(rt, "in range");
    assert!(rt; who < state.ranks());
    state.append(who, event)
}

/// A rank, a further event, and what becomes of it.
type Append = (usize, Given, Result<u32, LogFault>);

/// The row of rank 0 is full. Clocks rise, and so the first miss of a run is above the last clock of the row.
static APPENDS: [Append; 14] = [
    (0, (Kind::Reception, 1, 4097), Err(LogFault::Full)),
    (0, (Kind::Reception, 1, 4096), Err(LogFault::Full)),
    (1, (Kind::Reception, 1, 5), Ok(1)),
    (1, (Kind::Reception, 1, 5), Err(LogFault::Order)),
    (1, (Kind::Reception, 1, 4), Err(LogFault::Order)),
    (1, (Kind::Reception, 1, 6), Ok(2)),
    (2, (Kind::Misses, 2, 2), Ok(1)),
    (2, (Kind::Miss, 0, 2), Err(LogFault::Order)),
    (2, (Kind::Misses, 2, 3), Err(LogFault::Order)),
    (2, (Kind::Misses, 3, 5), Ok(2)),
    (2, (Kind::Misses, 4, 8), Err(LogFault::Order)),
    (2, (Kind::Misses, 3, 8), Ok(3)),
    (
        2,
        (Kind::Misses, GREATEST - 7, GREATEST),
        Err(LogFault::Order),
    ),
    (2, (Kind::Misses, GREATEST - 8, GREATEST), Ok(4)),
];

/// How many events, and the clocks of the first and the last one; zeros for none.
type Ends = (u64, u32, u32);

// The events are so many, and have these clocks.
fn have(rt: &impl Abort, events: &[Event], want: Ends) {
    let (first, last) = match events {
        [] => (0, 0),
        [only] => (only.receiver_clock(), only.receiver_clock()),
        [first, .., last] => (first.receiver_clock(), last.receiver_clock()),
    };
    let (length, first_wanted, last_wanted) = want;
    same(rt, "how many events", events.len() as u64, length);
    same(
        rt,
        "the first clock",
        u64::from(first),
        u64::from(first_wanted),
    );
    same(
        rt,
        "the last clock",
        u64::from(last),
        u64::from(last_wanted),
    );
}

/// A rank, a clock, and the ends of the rank's events behind it. A run is given whole where its last miss is above the clock.
static BEHIND: [(usize, u32, Ends); 7] = [
    (0, 4094, (2, 4095, 4096)),
    (0, 0, (4096, 1, 4096)),
    (0, 4096, (0, 0, 0)),
    (2, 0, (4, 2, GREATEST)),
    (2, 3, (3, 5, GREATEST)),
    (2, 5, (2, 8, GREATEST)),
    (2, GREATEST, (0, 0, 0)),
];

// Fills the row of rank 0, and then appends what the table says.
fn append_all(rt: &impl Abort, state: &mut LoggerState) {
    for clock in 1..=4096u32 {
        let length = append(rt, state, 0, (Kind::Reception, 1, clock));
        is_answered(rt, clock, length, Ok(clock));
    }
    for row in &APPENDS {
        let (who, given, want) = *row;
        let length = append(rt, state, who, given);
        is_answered(rt, given.2, length, want);
    }
}

// What rank 1 reads of a rank's row behind a clock.
fn read_behind(
    rt: &impl Abort,
    alloc: Heap,
    state: &mut LoggerState,
    row: &(usize, u32, Ends),
) -> Result<(), LogFault> {
    let (of, after, want) = *row;
    assert!(rt; 1 < state.ranks() && of < state.ranks());
    let read = state.read(alloc, 1, of, after)?;
    have(rt, read.as_slice(), want);
    Ok(())
}

#[test]
fn a_row_is_full_and_clocks_rise(rt: HostRuntime) -> Result<(), Fail> {
    let mut state = LoggerState::new(rt.alloc(), 3)?;
    append_all(&rt, &mut state);
    for row in &BEHIND {
        read_behind(&rt, rt.alloc(), &mut state, row)?;
    }
    Ok(())
}
