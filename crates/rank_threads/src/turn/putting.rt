//! Part 6 of a turn: what goes out.
ghost use Rattle.std.specs.Prelude.{◌≡◌, ◌<◌, true, false, OnOk};
ghost use Rattle.rank_threads.specs.Lives.{KeepsGate};
ghost use Rattle.rank_threads.specs.Putting.{HasNothing, KeepsOthers, NothingBelow, PutAll};

use crate::lanes_of::put_to;
use crate::life::Life;
use crate::node::PutResult;
use crate::shared::Shared;
use limits::MOST_FRAMES;
use std::alloc::AllocError;

/// Puts what is outgoing, by rising destination, until each lane is full or
/// nothing is left, and into each lane at most as many frames as it holds.
/// Answers whether a frame was put. Where it looked, and the rank owes nothing
/// then, nothing is outgoing to any rank.
#[tactic(auto, using(crate::proofs::PuttingLemmas::nothing_next))]
pub fn put_out<H>(shared: &Shared<'_, H>, life: &mut Life<'_, '_>) -> Result<bool, AllocError>
    ensures nothing { OnOk result (life.old.kit.tally.may_owe ≡ true → life.new.kit.tally.may_owe ≡ false
        → NothingBelow life.new.node.size life.new.node.phase) }
    ensures kept { KeepsGate life.old life.new }
{
    if !life.kit.tally.may_owe {
        return Ok(false);
    }
    life.kit.tally.set_owing(false);
    let mut put = false;
    for dest in 0..life.node.size {
        put = put_all_to(shared, life, dest)? || put;
    }
    Ok(put)
}

// Each frame is counted by its kind.
// What may be left, after a full lane or as many frames as a turn puts, is looked for in the next turn.
#[tactic(auto, using(crate::proofs::PuttingLemmas::put_laws))]
fn put_all_to<H>(
    shared: &Shared<'_, H>,
    life: &mut Life<'_, '_>,
    dest: u8,
) -> Result<bool, AllocError>
    requires { dest < life.old.node.size }
    ensures nothing { OnOk result (life.new.kit.tally.may_owe ≡ false → HasNothing life.new.node.phase dest) }
    ensures others { KeepsOthers dest life.old.node.phase life.new.node.phase }
    ensures owing { OnOk result (life.old.kit.tally.may_owe ≡ true → life.new.kit.tally.may_owe ≡ true) }
    ensures counted { OnOk result (PutAll dest life.old life.new) }
    ensures kept { KeepsGate life.old life.new }
{
    let mut put = false;
    let mut is_done = false;
    for _ in 0..MOST_FRAMES {
        if !life.node.has_outgoing(dest) {
            is_done = true;
            break;
        }
        match put_to(&mut life.kit.to, dest, &mut life.node)? {
            PutResult::Gone(kind) => {
                life.kit.tally.count_put();
                life.kit.meter.count_put(dest, kind);
                put = true;
            }
            PutResult::Full => break,
        }
    }
    if !is_done {
        life.kit.tally.set_owing(true);
    }
    if put {
        shared.ring(dest);
    }
    Ok(put)
}
