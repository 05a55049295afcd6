//! How a rank takes an image, its checkpoint.
ghost use Rattle.std.specs.Prelude.{◌≡◌, ◌≢◌, ◌≤◌, [], length, Ok, Err, IfOk, IfErr, IsErrOf, OnOk, OnErr};
ghost use Rattle.limits.specs.Limits.{greatest_clock};
ghost use Rattle.checkpoint.specs.Reading.{reading};
ghost use Rattle.checkpoint.specs.Shelf.{Grew};
ghost use Rattle.checkpoint.specs.Spelling.{spelling};
ghost use Rattle.rank_node.specs.Fault.{MayRefuseImage};
ghost use Rattle.rank_node.specs.Image.{kept_due, kepts_due};

use crate::due::Due;
use crate::fault::NodeFault;
use crate::frame::KeptUpto;
use crate::running::Running;
use checkpoint::{Shelf, encode_parts};
use limits::Heap;
use matching::Inbox;
use std::alloc::AllocError;

impl<'p, S: Shelf, D> Running<'p, S, D> {
    ghost use Rattle.rank_node.specs.Image.{IsImaged, KeepsImage, image_of};

    /// Takes an image of the rank, in the place of the last one on its shelf,
    /// the checkpoint store. Each rank from which it accepted something is due
    /// a `Kept` with the number accepted: MPICH-V2's garbage-collection notice,
    /// by which the sender drops those payloads.
    ///
    /// It is refused if anything waits at the gate, if the shelf's device
    /// fails, and when out of memory; the last image stays then.
    pub fn image(&mut self) -> Result<(), NodeFault>
        ensures ok { OnOk result (IsImaged S.last self.old self.new) }
        ensures err { OnErr result (self.new ≡ record self.old { stable = self.new.stable }) }
        ensures kept { OnErr result (KeepsImage S.last self.old.stable self.new.stable) }
        ensures refused { IfErr result MayRefuseImage }
        ensures unsettled { self.old.pending ≢ [] → (result ≡ Err NodeFault.NotSettled) × (self.new ≡ self.old) }
        ensures settled { IsErrOf result NodeFault.NotSettled → self.old.pending ≢ [] }
        ensures device { IsErrOf result NodeFault.Shelf → Grew (S.failures self.old.stable.shelf) (S.failures self.new.stable.shelf) }
        ensures memory { IsErrOf result NodeFault.Memory → self.new ≡ self.old }
    {
        let settled = self.pending.is_settled();
        if !settled {
            return Err(NodeFault::NotSettled);
        }
        let bytes = self.bytes()?;
        self.stable.put(bytes)?;
        let size = self.stable.size();
        owe_kepts(&mut self.dues, &self.inbox, size);
        Ok(())
    }

    // The bytes of its image, if nothing waits.
    fn bytes(&self) -> Result<Vec<u8, Heap>, AllocError>
        requires { self.now.pending ≡ [] }
        ensures spelled { IfOk result (λ bytes. bytes.items ≡ spelling (image_of self.now)) }
        ensures reads { IfOk result (λ bytes. reading self.now.machine.program self.now.stable.rank self.now.stable.size bytes.items ≡ Ok (image_of self.now)) }
    {
        encode_parts(
            self.alloc,
            &self.machine,
            self.clock,
            &self.inbox,
            &self.log,
        )
    }
}

// Each rank from which something was accepted is due a Kept that says how much, in the place of an
// older one.
#[tactic(auto, using(crate::proofs::Images::length_kepts))]
fn owe_kepts(dues: &mut Vec<Due, Heap>, inbox: &Inbox, size: u8)
    requires accepted { length inbox.now.accepted ≡ size }
    requires dues { length dues.old.items ≡ size }
    ensures due { dues.new.items ≡ kepts_due inbox.now.accepted dues.old.items }
    ensures length { length dues.new.items ≡ size }
{
    for source in 0..size {
        let accepted = inbox.accepted(source);
        let due = dues[usize::from(source)];
        dues[usize::from(source)] = with_kept(due, accepted);
    }
}

// What is due to a rank from which so many packets were accepted.
fn with_kept(due: Due, accepted: u32) -> Due
    requires { accepted ≤ greatest_clock }
    ensures { result ≡ kept_due accepted due }
{
    if accepted == 0 {
        return due;
    }
    Due {
        ask: due.ask,
        kept: Some(KeptUpto::new(accepted)),
    }
}
