//! The sends and lines of a rank that wait, as they leave the gate: output
//! commit.
ghost use Rattle.std.specs.Prelude.{◌≡◌, option_and_then, IfOk, IfErr, OnOk, OnErr};

use crate::fault::NodeFault;
use crate::running::Running;
use crate::screen::Screen;
use crate::waiting::Waiting;
use checkpoint::Shelf;

impl<'p, S: Shelf, D> Running<'p, S, D> {
    ghost use Rattle.rank_node.specs.Waiting.{effect_clock};
    ghost use Rattle.rank_node.specs.Releasing.{next_effect, released, ShowsEffect, IsLine};

    /// Output commit: lets the oldest of what waits pass, if that is a send or
    /// a line, so that no determinant before it is unstored or unacknowledged.
    /// The payload log saves the packet that it held, or the line is shown.
    /// Answers its clock, or `None` if nothing waits or an event stands first.
    /// An `Err` means out of memory, which only a line can meet.
    pub fn release<C: Screen>(&mut self, screen: &mut C) -> Result<Option<u32>, NodeFault>
        ensures clock { IfOk result (λ clock. clock ≡ option_and_then effect_clock (next_effect self.old)) }
        ensures ok { OnOk result (self.new ≡ released self.old (next_effect self.old)) }
        ensures shown { OnOk result (ShowsEffect C.shows self.old (next_effect self.old) screen.old screen.new) }

        ensures refused { IfErr result (λ e. e ≡ NodeFault.Memory) }
        ensures memory { OnErr result (IsLine (next_effect self.old)) }
        ensures err { OnErr result (self.new ≡ self.old) }
        ensures err_screen { OnErr result (screen.new ≡ screen.old) }
        ensures stable { self.new.stable ≡ self.old.stable }
    {
        match self.pending.oldest_effect() {
            Some(Waiting::Send { dest, clock }) => {
                self.log.free(usize::from(dest));
                self.pending.release();
                Ok(Some(clock))
            }
            Some(Waiting::Line { clock, value }) => {
                screen.show(self.stable.rank(), clock, value)?;
                self.pending.release();
                Ok(Some(clock))
            }
            Some(Waiting::Event(_)) | None => Ok(None),
        }
    }
}
