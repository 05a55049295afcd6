//! From a station (a process slot) to a life (an incarnation) and back.
ghost use Rattle.std.specs.Prelude.{◌≡◌, ◌<◌, ◌≤◌, None, IfErr, OnOk, OnErr};
ghost use Rattle.event_logger.specs.Desks.{own_row};
ghost use Rattle.limits.specs.Limits.{most_ranks};
ghost use Rattle.rank_node.specs.Phases.{stable_in};
ghost use Rattle.rank_threads.specs.Costs.{after_log, log_size_in};
ghost use Rattle.rank_threads.specs.Endings.{stood_at};
ghost use Rattle.rank_threads.specs.Phases.{Begins, is_replaying};
ghost use Rattle.rank_threads.specs.Stations.{SameStation, IsLifeOf, IsNew, HasRow};

use super::Station;
use crate::life::kit::Kit;
use crate::life::stood::Stood;
use crate::life::{Life, Row};
use crate::meter::Meter;
use crate::node::Node;
use crate::plan::Plan;
use crate::shared::Shared;
use crate::tally::Tally;
use audit::End;
use checkpoint::MemoryShelf;
use event_logger::{Desk, Logger};
use limits::Heap;
use ports::{Rx, Tx};
use rank_node::{Down, NodeFault, Phase, Stable};
use std::sync::Wait;

impl<'l> Station<'l> {
    /// The station of a rank that hasn't lived yet.
    pub fn new(
        alloc: Heap,
        logger: &'l Logger,
        desk: Desk,
        rank: u8,
        size: u8,
        to: Vec<Tx, Heap>,
        from: Vec<Rx, Heap>,
        plan: Plan,
    ) -> Station<'l>
        requires rank { rank < size }
        requires few { size ≤ most_ranks }
        requires who { desk.rank ≡ rank }
        requires own { desk.table ≡ logger.now.table }
        requires ranks { logger.now.ranks ≡ size }
        ensures desk { result.down.desk ≡ desk }
        ensures to { result.kit.to ≡ to }
        ensures from { result.kit.from ≡ from }
        ensures plan { result.kit.plan ≡ plan }
        ensures rank { result.kit.rank ≡ rank }
        ensures fresh { IsNew result }
    {
        let stable = Stable::new(desk, MemoryShelf::new(alloc), rank, size);
        let kit = Kit {
            rank,
            to,
            from,
            plan,
            tally: Tally::new(),
            meter: Meter::new(),
        };
        Station {
            kit,
            down: Down::of(stable),
            logger,
            size,
            row: None,
            end: None,
            stood: Stood {
                clock: 0,
                is_replaying: false,
                is_at_rest: false,
            },
        }
    }

    /// A life of the rank begins. Where it can't, its fault says why, and
    /// all are to leave.
    pub fn begin<'p, W: Wait, H>(self, rt: &W, shared: &Shared<'p, H>) -> Life<'p, 'l>
        ensures begins { result.kit.tally.fault ≡ None → Begins shared.now.program.now self.entry.down self.entry.row result.node.phase }
        ensures kit { result.kit ≡ record self.entry.kit { tally = record self.entry.kit.tally { fault = result.kit.tally.fault } } }
        ensures well { result.kit.tally.fault ≡ None → result.kit.tally ≡ self.entry.kit.tally }
        ensures same { IsLifeOf self.entry result }
    {
        let Station {
            mut kit,
            down,
            logger,
            size,
            row,
            end: _,
            stood: _,
        } = self;
        let (node, fault) = Node::begin(shared.alloc, shared.program, logger, down, row, size);
        if let Some(fault) = fault {
            kit.tally.refuse(shared.stop_all(rt, fault));
        }
        Life { node, kit }
    }

    /// The rank stops for good, and gives back its desk and its lanes.
    pub fn close(self) -> (Desk, Vec<Tx, Heap>, Vec<Rx, Heap>)
        ensures desk { result.0 ≡ self.entry.down.desk }
        ensures to { result.1 ≡ self.entry.kit.to }
        ensures from { result.2 ≡ self.entry.kit.from }
    {
        let Station {
            kit,
            down,
            logger: _,
            size: _,
            row: _,
            end: _,
            stood: _,
        } = self;
        let Kit {
            rank: _,
            to,
            from,
            plan: _,
            tally: _,
            meter: _,
        } = kit;
        let (desk, _shelf) = down.retire().parts();
        (desk, to, from)
    }

    /// The rank fetches its row, which it replays in its next life.
    pub fn fetch(&mut self, alloc: Heap) -> Result<(), NodeFault>
        ensures row { OnOk result (HasRow self.new) }
        ensures kit { self.new.kit ≡ self.old.kit }
        ensures rest { (self.new.end ≡ self.old.end) × (self.new.stood ≡ self.old.stood) }
        ensures shelf { self.new.down.shelf ≡ self.old.down.shelf }
        ensures stored { own_row self.new.down.desk ≡ own_row self.old.down.desk }
        ensures memory { IfErr result (λ e. e ≡ NodeFault.Memory) }
        ensures err { OnErr result ((self.new.down ≡ self.old.down) × (self.new.row ≡ self.old.row)) }
        ensures same { SameStation self.old self.new }
    {
        let logger = self.logger;
        let row = self.down.fetch(alloc, logger)?;
        self.row = Some(Row::new(row));
        Ok(())
    }
}

impl<'p, 'l> Life<'p, 'l> {
    /// The life is over. `end` says how the rank left; where it crashed, it
    /// didn't. `is_at_rest` says whether it left as all ranks were at rest.
    pub fn leave(self, end: Option<End>, is_at_rest: bool) -> Station<'l>
        ensures end { result.end ≡ end }
        ensures down { result.down ≡ stable_in self.entry.node.phase }
        ensures stood { result.stood ≡ stood_at is_at_rest self.entry.node.phase }
        ensures kit { result.kit ≡ record self.entry.kit { meter = after_log self.entry.kit.meter (log_size_in self.entry.node.phase) } }
        ensures row { result.row ≡ None }
        ensures same { IsLifeOf result self.entry }
    {
        let Life { node, mut kit } = self;
        kit.meter.note_log(node.log_size());
        let stood = Stood {
            clock: node.clock(),
            is_replaying: is_replaying(&node),
            is_at_rest,
        };
        let (down, logger, size) = node.end();
        Station {
            kit,
            down,
            logger,
            size,
            row: None,
            end,
            stood,
        }
    }
}

fn is_replaying(node: &Node<'_, '_>) -> bool
    ensures { result ≡ is_replaying node.now.phase }
{
    match node.phase() {
        Phase::Replaying(_) => true,
        Phase::Running(_) | Phase::Down(_) => false,
    }
}
