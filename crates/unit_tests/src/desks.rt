//! A rank that starts again, with a desk at the logger that threads share.
ghost use Rattle.std.specs.Prelude.{◌≡◌};
ghost use Rattle.event_logger.specs.Desks.{IsSameDesk};

use crate::same::{holds, is_answered};
use checkpoint::{MemoryShelf, Shelf};
use event_logger::{Desk, Event, Kind, Logger};
use limits::Heap;
use rank_language::Program;
use rank_node::{Running, Stable};
use std::test::*;

/// How many events are fetched, are left, and are read of the own row, and how often the shelf failed. Zeros stand when out of
/// memory.
type Counts = [u64; 4];

// The only rank of a run crashes, starts again, and reads its own row.
fn counts(alloc: Heap, program: &Program, logger: &Logger, desk: Desk) -> (Desk, Counts)
    requires own { desk.table ≡ logger.now.table }
    requires one { logger.now.ranks ≡ 1 }
    ensures { IsSameDesk desk result.0 }
{
    let stable = Stable::new(desk, MemoryShelf::new(alloc), 0, 1);
    let mut down = match Running::start(alloc, program, stable) {
        Ok(rank) => rank.crash(),
        Err((stable, _)) => {
            let (desk, _) = stable.parts();
            return (desk, [0; 4]);
        }
    };
    let Ok(row) = down.fetch(alloc, logger) else {
        let (desk, _) = down.retire().parts();
        return (desk, [0; 4]);
    };
    let fetched = row.len() as u64;
    match down.restart(alloc, program, row) {
        Ok(mut rank) => {
            let read = match rank.read(logger, 0, 0) {
                Ok(events) => events.len() as u64,
                Err(_) => 0,
            };
            let left = u64::from(rank.left());
            let (desk, shelf) = rank.retire().parts();
            (desk, [fetched, left, read, shelf.faults()])
        }
        Err((down, _)) => {
            let (desk, _) = down.retire().parts();
            (desk, [0; 4])
        }
    }
}

#[test]
fn a_rank_that_replays_reads_its_own_row(rt: HostRuntime) -> Result<(), Fail> {
    let alloc = rt.alloc();
    let program = Program::parse(alloc, b"var f\niprobe any, any, f\n")?;
    let event = Event::new(Kind::Miss, 0, 0, 1).expect(&rt, "in range");
    let (logger, mut desks) = Logger::new(alloc, 1)?;
    let Some(mut desk) = desks.pop() else {
        unreachable!()
    };
    let stored = logger.append(&mut desk, event);
    let (desk, found) = counts(alloc, &program, &logger, desk);
    desks.push_reserved(desk);
    let _ledger = logger.close(alloc, desks)?;
    is_answered(&rt, 1, stored, Ok(1));
    holds(&rt, "fetched, left, read and failed", found == [1, 1, 1, 0]);
    Ok(())
}
