//! The logger that threads share: eight ranks, each on a thread of its own.
ghost use Rattle.std.specs.Prelude.{◌≡◌, ◌<◌, length};
ghost use Rattle.event_logger.specs.Desks.{AreDesks, IsSameDesk};

use crate::same::{is_answered, same};
use event_logger::{Desk, Event, Kind, LogFault, Logger};
use limits::Heap;
use std::process::Abort;
use std::test::*;
use std::thread;
use std::thread::Threads;

// A reception of the message that rank 1 sent as its first act.
fn reception(rt: &impl Abort, clock: u32) -> Event {
    Event::new(Kind::Reception, 1, 1, clock).expect(rt, "in range")
}

// Whose row a rank reads: the next rank's, and the last rank the first one's.
fn next(logger: &Logger, rank: usize) -> usize
    requires { 0 < logger.now.ranks }
    ensures { result < logger.now.ranks }
{
    if rank < logger.ranks() - 1 {
        rank + 1
    } else {
        0
    }
}

// Appends the events of the clocks from 1 to 4096.
fn fill(rt: &impl Abort, logger: &Logger, desk: &mut Desk)
    requires { desk.old.table ≡ logger.now.table }
    ensures { IsSameDesk desk.old desk.new }
{
    for clock in 1..=4096u32 {
        let length = logger.append(desk, reception(rt, clock));
        is_answered(rt, clock, length, Ok(clock));
    }
}

// The clocks of the events rise by one, from this one on.
fn rise(rt: &impl Abort, events: &[Event], first: u32) {
    let mut clock = first;
    for event in events {
        let found = u64::from(event.receiver_clock());
        same(rt, "the next clock", found, u64::from(clock));
        clock = clock.saturating_add(1);
    }
}

// A rank's calls: 4096 appends, two that find the row full, of which one is behind its clock too, a
// fetch of the last two, and the next rank's row, as far as it has come.
fn live(rt: &impl Abort, alloc: Heap, logger: &Logger, desk: &mut Desk)
    requires own { desk.old.table ≡ logger.now.table }
    requires some { 0 < logger.now.ranks }
    ensures { IsSameDesk desk.old desk.new }
{
    fill(rt, logger, desk);
    let full = logger.append(desk, reception(rt, 4097));
    is_answered(rt, 4097, full, Err(LogFault::Full));
    let full = logger.append(desk, reception(rt, 4096));
    is_answered(rt, 4096, full, Err(LogFault::Full));
    let last = logger
        .fetch(alloc, desk, 4094)
        .expect(rt, "there is memory");
    same(rt, "how many are fetched", last.len() as u64, 2);
    rise(rt, last.as_slice(), 4095);
    let of = next(logger, desk.rank());
    let read = logger
        .read(alloc, desk, of, 0)
        .expect(rt, "there is memory");
    rise(rt, read.as_slice(), 1);
}

// A rank reads the last two events of the next rank's row.
fn read_last(rt: &impl Abort, alloc: Heap, logger: &Logger, desk: &mut Desk)
    requires own { desk.old.table ≡ logger.now.table }
    requires some { 0 < logger.now.ranks }
    ensures { IsSameDesk desk.old desk.new }
{
    let of = next(logger, desk.rank());
    let last = logger
        .read(alloc, desk, of, 4094)
        .expect(rt, "there is memory");
    same(rt, "how many are read", last.len() as u64, 2);
    rise(rt, last.as_slice(), 4095);
}

// Each rank lives, or reads if all have lived, with so many of them on threads of their own at a time.
fn all<R: Threads + Abort + Sync>(
    rt: &R,
    alloc: Heap,
    logger: &Logger,
    desks: &mut [Desk],
    count: usize,
    have_lived: bool,
)
    requires some { (0 < logger.now.ranks) × (0 < count) }
    requires own { AreDesks logger.now.table desks.old }
    ensures own { AreDesks logger.now.table desks.new }
{
    thread::for_each_mut(
        rt,
        desks,
        count,
        &|_, desk: &mut Desk|
            requires { (desk.old.table ≡ logger.now.table) × (0 < logger.now.ranks) }
            ensures { IsSameDesk desk.old desk.new }
        {
            if have_lived {
                read_last(rt, alloc, logger, desk)
            } else {
                live(rt, alloc, logger, desk)
            }
        },
    );
}

#[test]
fn eight_ranks_on_threads(rt: HostRuntime) -> Result<(), Fail> {
    let alloc = rt.alloc();
    let (logger, mut desks) = Logger::new(alloc, 8)?;
    all(&rt, alloc, &logger, desks.as_mut_slice(), 8, false);
    all(&rt, alloc, &logger, desks.as_mut_slice(), 1, true);
    let ledger = logger.close(alloc, desks)?;
    same(&rt, "ranks", ledger.ranks() as u64, 8);
    for rank in 0..ledger.ranks() {
        same(&rt, "events of a rank", ledger.row(rank).len() as u64, 4096);
        rise(&rt, ledger.row(rank), 1);
    }
    Ok(())
}
