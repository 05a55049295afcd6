//! The events of a rank, its determinants, on their way to the event logger.
ghost use Rattle.std.specs.Prelude.{◌≡◌, ◌<◌, ◌↔◌, ◌⊎◌, length, None, Ok, IsTrue, IsErrOf, IfOk, IfErr, OnErr, MatchOption};
ghost use Rattle.std.specs.Bool.{OnTrue, OnFalse};
ghost use Rattle.event_logger.specs.declared.sequential.call.Reply.TheVariants.{Length};

use crate::fault::NodeFault;
use crate::running::Running;
use checkpoint::Shelf;
use event_logger::{LogFault, LoggerState};

impl<'p, S: Shelf, D> Running<'p, S, D> {
    ghost use Rattle.rank_node.specs.Storing.{next_unstored, after_store, after_ack, Appends, IsRefused};

    /// Appends the oldest unstored event to the rank's row and answers the
    /// row's new length, or `None` if every event is stored or a send or a line
    /// stands before it. This is MPICH-V2's store of a determinant at the event
    /// logger.
    pub fn store_state(&mut self, logger: &mut LoggerState) -> Result<Option<u32>, NodeFault>
        requires { self.old.stable.rank < length logger.old.rows }
        ensures none { (result ≡ Ok None) ↔ (next_unstored self.old ≡ None) }
        ensures ok { IfOk result (λ stored. MatchOption stored (self.new ≡ self.old) (λ _. self.new ≡ after_store self.old)) }
        ensures row { IfOk result (λ stored. MatchOption stored (logger.new ≡ logger.old)
            (λ length. Appends (next_unstored self.old) self.old.stable.rank logger.old (Length length) logger.new)) }

        ensures log { IsErrOf result NodeFault.Log → IsRefused (next_unstored self.old) self.old.stable.rank logger.old logger.new }
        ensures memory { IsErrOf result NodeFault.Memory → logger.new ≡ logger.old }
        ensures refused { IfErr result (λ e. (e ≡ NodeFault.Log) ⊎ (e ≡ NodeFault.Memory)) }
        ensures err { OnErr result (self.new ≡ self.old) }
        ensures stable { self.new.stable ≡ self.old.stable }
    {
        let Some(event) = self.pending.oldest_unstored() else {
            return Ok(None);
        };
        match logger.append(usize::from(self.stable.rank()), event) {
            Ok(length) => {
                self.pending.mark_stored();
                Ok(Some(length))
            }
            Err(LogFault::Full) => Err(NodeFault::Log),
            Err(LogFault::Order) => Err(NodeFault::Log),
            Err(LogFault::Memory) => Err(NodeFault::Memory),
        }
    }

    /// Acknowledges the oldest stored event that isn't acknowledged, if there
    /// is one: the logger's acknowledgment, for which the gate waits.
    pub fn ack(&mut self) -> bool
        ensures some { IsTrue result ↔ (0 < self.old.stored) }
        ensures acked { OnTrue result (self.new ≡ after_ack self.old) }
        ensures none { OnFalse result (self.new ≡ self.old) }
        ensures stable { self.new.stable ≡ self.old.stable }
    {
        self.pending.acknowledge()
    }
}
