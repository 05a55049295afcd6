//! How a life of a rank begins and ends.
ghost use Rattle.std.specs.Prelude.{◌≡◌, ◌≢◌, Some, None};
ghost use Rattle.rank_node.specs.Node.{opening};
ghost use Rattle.rank_node.specs.Phases.{stable_in, settled_in};
ghost use Rattle.rank_threads.specs.Lives.{SameNode};
ghost use Rattle.rank_threads.specs.Phases.{Begins, SameStable};

use super::Node;
use crate::life::Row;
use checkpoint::MemoryShelf;
use event_logger::{Desk, Logger};
use limits::Heap;
use rank_language::Program;
use rank_node::{Down, NodeFault, Phase, Running};

impl<'p, 'l> Node<'p, 'l> {
    /// A rank at the beginning of a life: of its program, or where there is a
    /// row, of what it replays. Where it can't begin it is down, and the fault
    /// says why.
    pub fn begin(
        alloc: Heap,
        program: &'p Program,
        logger: &'l Logger,
        down: Down<MemoryShelf, Desk>,
        row: Option<Row>,
        size: u8,
    ) -> (Node<'p, 'l>, Option<NodeFault>)
        requires own { down.desk.table ≡ logger.now.table }
        requires ranks { logger.now.ranks ≡ size }
        requires sized { down.size ≡ size }
        ensures begins { result.1 ≡ None → Begins program.now down row result.0.phase }
        ensures down { result.1 ≢ None → result.0.phase ≡ Phase.Down (stable_in result.0.phase) }
        ensures same { SameStable down (stable_in result.0.phase) }
        ensures size { result.0.size ≡ size }
    {
        let (phase, fault) = match row {
            None => start(alloc, program, down),
            Some(row) => restart(alloc, program, down, row),
        };
        let node = Node {
            phase,
            logger,
            size,
        };
        (node, fault)
    }

    /// A rank that has nothing left to replay runs from now on.
    pub fn settle(self) -> Node<'p, 'l>
        ensures settled { result.phase ≡ settled_in self.entry.phase }
        ensures same { SameNode self.entry result }
    {
        let Node {
            phase,
            logger,
            size,
        } = self;
        Node {
            phase: phase.settled(),
            logger,
            size,
        }
    }

    /// The life is over: what is stable outlives it, and nothing else does of
    /// the rank. Gives the logger and the number of ranks back too.
    pub fn end(self) -> (Down<MemoryShelf, Desk>, &'l Logger, u8)
        ensures down { result.0 ≡ stable_in self.entry.phase }
        ensures size { result.2 ≡ self.entry.size }
        ensures own { result.0.desk.table ≡ result.1.now.table }
        ensures ranks { result.1.now.ranks ≡ result.2 }
        ensures sized { result.0.size ≡ result.2 }
    {
        let Node {
            phase,
            logger,
            size,
        } = self;
        (phase.crash(), logger, size)
    }
}

// At the beginning of its program.
fn start<'p>(
    alloc: Heap,
    program: &'p Program,
    down: Down<MemoryShelf, Desk>,
) -> (Phase<'p, MemoryShelf, Desk>, Option<NodeFault>)
    ensures begins { result.1 ≡ None → result.0 ≡ Phase.Running (opening program.now down) }
    ensures down { result.1 ≢ None → result.0 ≡ Phase.Down (stable_in result.0) }
    ensures stable { stable_in result.0 ≡ down }
{
    match Running::start(alloc, program, down.retire()) {
        Ok(rank) => (Phase::Running(rank), None),
        Err((stable, fault)) => (Phase::Down(Down::of(stable)), Some(fault)),
    }
}

// At its image, replaying what of its row is above it.
fn restart<'p>(
    alloc: Heap,
    program: &'p Program,
    down: Down<MemoryShelf, Desk>,
    row: Row,
) -> (Phase<'p, MemoryShelf, Desk>, Option<NodeFault>)
    ensures begins { result.1 ≡ None → Begins program.now down (Some row) result.0 }
    ensures down { result.1 ≢ None → result.0 ≡ Phase.Down (stable_in result.0) }
    ensures same { SameStable down (stable_in result.0) }
{
    match down.restart(alloc, program, row.into_events()) {
        Ok(rank) => (Phase::Replaying(rank).settled(), None),
        Err((down, fault)) => (Phase::Down(down), Some(fault)),
    }
}
