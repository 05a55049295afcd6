//! What a rank calls at the event logger that threads share: it stores
//! determinants there, and fetches its own for a replay.
ghost use Rattle.std.specs.Prelude.{◌≡◌, ◌<◌, ◌≤◌, ◌↔◌, None, Ok, length, IfOk, IfErr, OnErr, MatchOption};
ghost use Rattle.limits.specs.Limits.{most_events};
ghost use Rattle.event_logger.specs.Sequential.History.{above};
ghost use Rattle.event_logger.specs.declared.sequential.call.Call.TheVariants.{Fetch};
ghost use Rattle.event_logger.specs.declared.view.Answer.TheVariants.{Stored};
ghost use Rattle.event_logger.specs.Desks.{IsRead, IsSameDesk, found, own_row, with_call};
ghost use Rattle.rank_node.specs.Desked.{with_desk, at_desk, Appended, IsDeclined};
ghost use Rattle.rank_node.specs.Storing.{next_unstored, after_store};

use crate::down::Down;
use crate::fault::NodeFault;
use crate::replaying::Replaying;
use crate::running::Running;
use checkpoint::Shelf;
use event_logger::{Desk, Event, LogFault, Logger};
use limits::Heap;

impl<'p, S: Shelf> Running<'p, S, Desk> {
    /// Appends the oldest unstored event to the rank's row and answers the
    /// row's new length, or `None` if every event is stored or a send or a line
    /// stands before it. It takes no memory. This is MPICH-V2's store of a
    /// determinant at the event logger.
    pub fn store(&mut self, logger: &Logger) -> Result<Option<u32>, NodeFault>
        requires { self.old.stable.desk.table ≡ logger.now.table }
        ensures none { (result ≡ Ok None) ↔ (next_unstored self.old ≡ None) }
        ensures ok { IfOk result (λ stored. MatchOption stored (self.new ≡ self.old) (λ _. self.new ≡ after_store (at_desk self.old self.new.stable.desk))) }
        ensures row { IfOk result (λ stored. MatchOption stored (self.new.stable.desk ≡ self.old.stable.desk)
            (λ length. Appended (next_unstored self.old) self.old.stable.desk (Stored length) self.new.stable.desk)) }

        ensures log { OnErr result (IsDeclined (next_unstored self.old) self.old.stable.desk self.new.stable.desk) }
        ensures refused { IfErr result (λ e. e ≡ NodeFault.Log) }
        ensures err { OnErr result (self.new ≡ at_desk self.old self.new.stable.desk) }
        ensures desk { IsSameDesk self.old.stable.desk self.new.stable.desk }
    {
        let Some(event) = self.pending.oldest_unstored() else {
            return Ok(None);
        };
        match logger.append(&mut self.stable.desk, event) {
            Ok(length) => {
                self.pending.mark_stored();
                Ok(Some(length))
            }
            Err(LogFault::Full | LogFault::Order) => Err(NodeFault::Log),
            Err(LogFault::Memory) => unreachable!(),
        }
    }

    /// The events of rank `of`, below the logger's number of ranks, whose
    /// receiver's clock is above `after`. An `Err` means out of memory.
    pub fn read(
        &mut self,
        logger: &Logger,
        of: u8,
        after: u32,
    ) -> Result<Vec<Event, Heap>, NodeFault>
        requires own { self.old.stable.desk.table ≡ logger.now.table }
        requires named { of < logger.now.ranks }
        ensures ok { IfOk result (λ events. IsRead self.old.stable.desk of after events.items self.new.stable.desk) }
        ensures stays { self.new ≡ at_desk self.old self.new.stable.desk }
        ensures memory { IfErr result (λ e. e ≡ NodeFault.Memory) }
        ensures err { OnErr result (self.new ≡ self.old) }
        ensures desk { IsSameDesk self.old.stable.desk self.new.stable.desk }
    {
        match logger.read(self.alloc, &mut self.stable.desk, usize::from(of), after) {
            Ok(events) => Ok(events),
            Err(_) => Err(NodeFault::Memory),
        }
    }
}

impl<'p, S: Shelf> Replaying<'p, S, Desk> {
    /// The events of rank `of`, below the logger's number of ranks, whose
    /// receiver's clock is above `after`. An `Err` means out of memory.
    pub fn read(
        &mut self,
        logger: &Logger,
        of: u8,
        after: u32,
    ) -> Result<Vec<Event, Heap>, NodeFault>
        requires own { self.old.node.stable.desk.table ≡ logger.now.table }
        requires named { of < logger.now.ranks }
        ensures ok { IfOk result (λ events. IsRead self.old.node.stable.desk of after events.items self.new.node.stable.desk) }
        ensures stays { self.new ≡ record { node = at_desk self.old.node self.new.node.stable.desk; left = self.old.left } }
        ensures memory { IfErr result (λ e. e ≡ NodeFault.Memory) }
        ensures err { OnErr result (self.new ≡ self.old) }
        ensures desk { IsSameDesk self.old.node.stable.desk self.new.node.stable.desk }
    {
        self.running.read(logger, of, after)
    }
}

impl<S: Shelf> Down<S, Desk> {
    /// The whole row of the rank, at most `MOST_EVENTS` events: the
    /// determinants that a restart replays. An `Err` means out of memory.
    #[tactic(auto, using(crate::proofs::Rows::length_above))]
    pub fn fetch(&mut self, alloc: Heap, logger: &Logger) -> Result<Vec<Event, Heap>, NodeFault>
        requires { self.old.desk.table ≡ logger.now.table }
        ensures row { IfOk result (λ row. row.items ≡ above 0 (own_row self.old.desk)) }
        ensures most { IfOk result (λ row. length row.items ≤ most_events) }
        ensures ok { IfOk result (λ _. self.new ≡ with_desk self.old (with_call self.old.desk (Fetch 0) (found (own_row self.old.desk)))) }
        ensures memory { IfErr result (λ e. e ≡ NodeFault.Memory) }
        ensures err { OnErr result (self.new ≡ self.old) }
        ensures desk { IsSameDesk self.old.desk self.new.desk }
    {
        self.stable.desk.law_row_is_short();
        match logger.fetch(alloc, &mut self.stable.desk, 0) {
            Ok(row) => Ok(row),
            Err(_) => Err(NodeFault::Memory),
        }
    }
}
