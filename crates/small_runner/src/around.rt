//! What stands around the ranks, and outlives their crashes.
ghost use Rattle.std.specs.Prelude.{◌≡◌, ◌<◌, ◌≤◌, length, IfOk};
ghost use Rattle.limits.specs.Limits.{most_events};
ghost use Rattle.event_logger.specs.Sequential.History.{above, row};

use event_logger::{Event, LoggerState};
use limits::Heap;
use ports::ConsoleState;
use rank_language::Program;
use rank_node::{Frame, NodeFault};
use std::alloc::AllocError;
use std::mem;

/// How many ranks there are.
pub const RANKS: u8 = 2;

/// A frame on its way, with the rank from which it comes.
#[derive(Drop)]
pub struct Parcel {
    pub from: u8,
    pub frame: Frame,
    ghost there: { from < 2 },
}

/// The program, the event logger, the console, and the frames on their way.
#[derive(Drop)]
pub struct Around<'p> {
    pub alloc: Heap,
    pub program: &'p Program,
    pub logger: LoggerState,
    pub console: ConsoleState,
    // of each rank, the frames on their way to it, oldest first
    wires: Vec<Vec<Parcel, Heap>, Heap>,
    ghost rows: { length logger.rows ≡ 2 },
    ghost ends: { length wires.items ≡ 2 },
}

impl<'p> Around<'p> {
    /// Nothing is stored, shown or on its way.
    pub fn new(alloc: Heap, program: &'p Program) -> Result<Around<'p>, AllocError> {
        Ok(Around {
            alloc,
            program,
            logger: LoggerState::new(alloc, usize::from(RANKS))?,
            console: ConsoleState::new(alloc, RANKS)?,
            wires: wires(alloc)?,
        })
    }

    /// A frame is put on its way to a rank, behind those that are.
    pub fn put(&mut self, dest: u8, parcel: Parcel) -> Result<(), AllocError>
        requires { dest < 2 }
    {
        self.wires[usize::from(dest)].push(parcel)?;
        Ok(())
    }

    /// The frames on their way to a rank, which leave their wire.
    pub fn take(&mut self, dest: u8) -> Vec<Parcel, Heap>
        requires { dest < 2 }
    {
        mem::replace(&mut self.wires[usize::from(dest)], Vec::new(self.alloc))
    }

    /// The whole row of a rank.
    #[tactic(auto, using(crate::proofs::Rows::fetched, crate::proofs::Rows::short))]
    pub fn row_of(&mut self, rank: u8) -> Result<Vec<Event, Heap>, NodeFault>
        requires { rank < 2 }
        ensures row { IfOk result (λ events. events.items ≡ above 0 (row self.old.logger.rows rank)) }
        ensures most { IfOk result (λ events. length events.items ≤ most_events) }
    {
        let rank = usize::from(rank);
        // a row holds no more events than one may
        let _row = self.logger.row(rank);
        match self.logger.fetch(self.alloc, rank, 0) {
            Ok(events) => Ok(events),
            Err(_) => Err(NodeFault::Memory),
        }
    }
}

// A wire to each rank, on which nothing is.
fn wires(alloc: Heap) -> Result<Vec<Vec<Parcel, Heap>, Heap>, AllocError>
    ensures { IfOk result (λ wires. length wires.items ≡ 2) }
{
    let mut wires = Vec::new(alloc);
    for _ in 0..RANKS {
        wires.push(Vec::new(alloc))?;
    }
    Ok(wires)
}
