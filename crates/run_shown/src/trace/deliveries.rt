//! Which act received which message.
ghost use Rattle.std.specs.Prelude.{◌≡◌, IfOk};
ghost use Rattle.limits.specs.Limits.{most_ranks};
ghost use Rattle.run_shown.specs.Trace.Deliveries.{AreDelivered, AreOfRanks, sends_found};

use crash_free::send_index::Sends;
use crash_free::{Act, Passed};
use limits::Heap;
use std::alloc::AllocError;

/// What became of an act's message.
#[derive(Clone, Copy)]
pub struct Delivery {
    /// Of a reception or a hit: the index of the send.
    pub send: Option<usize>,
    /// Of a send: whether its message was received.
    pub taken: bool,
}

/// What became of the message of each act, by the act's index.
pub fn deliveries_of(alloc: Heap, acts: &[Passed]) -> Result<Vec<Delivery, Heap>, AllocError>
    requires { AreOfRanks most_ranks acts.now }
    ensures { IfOk result (λ found. AreDelivered acts.now found.items) }
{
    let mut sends = Sends::new(alloc)?;
    let mut found: Vec<Delivery, Heap> = Vec::new(alloc);
    for index in 0..acts.len() {
        let passed = &acts[index];
        let send = sends.send_for(passed);
        sends.note(passed, index)?;
        mark(&mut found, passed, send);
        found.push(Delivery { send, taken: false })?;
    }
    Ok(found)
}

// Marks the message of this send as received, if the act is a reception.
#[tactic(auto, using(crate::proofs::TraceLaws::DeliveryLemmas::marked_same))]
fn mark(found: &mut Vec<Delivery, Heap>, passed: &Passed, send: Option<usize>)
    ensures { sends_found found.new.items ≡ sends_found found.old.items }
{
    if let (Act::Takes { .. }, Some(index)) = (&passed.act, send) {
        if index < found.len() {
            found[index].taken = true;
        }
    }
}
