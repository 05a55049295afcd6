//! One turn of a rank, in seven parts: a stride (`stepping`), what the lanes bring
//! (`taking`), a step (`stepping`), what the script asks for and whether an image is
//! due (`orders`), what waits at the gate (`clearing`), what goes out (`putting`),
//! and the rank's mark (`leaving`).
//!
//! What a message passes on its way is inlined into the turn, from the machine's send
//! and the lane to inbox and payload log (`inline(always)`, here and in the crates
//! below). A function that holds a packet clears room for it first, and moves it there
//! and on, so each call between would cost some dozens of instructions.
ghost use Rattle.std.specs.Prelude.{◌≡◌, true, false, Some, IfOk};
ghost use Rattle.rank_node.specs.Phases.{clock_in, settled_in};
ghost use Rattle.rank_threads.specs.Clearing.{leaves_misses};
ghost use Rattle.rank_threads.specs.Costs.{after_step};
ghost use Rattle.rank_threads.specs.Endings.{GoesDownAt, is_down, is_leave};
ghost use Rattle.rank_threads.specs.Lives.{SameLife, SamePlan};
ghost use Rattle.rank_threads.specs.Orders.{images_after};
ghost use Rattle.rank_threads.specs.TurnEnds.{ClearsTurn, FollowsScript, LeavesGate, LetsOut, TakesImage};
ghost use Rattle.rank_threads.specs.Turns.{IsBegun, kills_after};
ghost use Rattle.rank_threads.specs.Used.{UsesLine};

mod clearing;
mod orders;
mod putting;
mod stepping;
mod taking;

use crate::hold::Hold;
use crate::leaving::rest;
use crate::life::{KillToken, Life, Why, kill_of};
use crate::shared::Shared;
use clearing::clear_gate;
use orders::{images_after, is_image, order_after};
use putting::put_out;
use rank_node::NodeFault;
use std::sync::Wait;
pub use stepping::Stepped;
use stepping::{step, stride};
use taking::{Arrivals, is_frames, take_if_rung};
pub use taking::{EmptyLanes, drain_lanes};

/// What follows a turn. It must be spent.
pub enum After<'s> {
    /// Another turn; after an idle one others go first.
    Turn { is_idle: bool },
    Crash(KillToken),
    Leave(Why<'s>),
}

/// What the first three parts of a turn came to.
#[derive(Clone, Copy)]
pub struct TurnStart {
    brought: Arrivals,
    pub stepped: Stepped,
}

/// The beginning of a turn: a stride, what the lanes bring, and a step.
///
/// The stride comes first, so that a receive behind it finds what came meanwhile. Whatever comes
/// after the look at the lanes rings the bell once more, for the next turn: a rank that is blocked
/// by its step here hasn't missed it.
pub fn begin<W: Wait, H: Hold>(
    rt: &W,
    shared: &Shared<'_, H>,
    life: &mut Life<'_, '_>,
) -> Result<TurnStart, NodeFault>
    ensures begun { IfOk result (λ begun. IsBegun shared.now.limits.steps life.old life.new begun) }
    ensures plan { SamePlan life.old life.new }
    ensures same { SameLife life.old life.new }
{
    stride(shared, life);
    let brought = take_if_rung(shared, life)?;
    let stepped = step(rt, shared, life)?;
    count_act(life, stepped);
    Ok(TurnStart { brought, stepped })
}

// An act is counted by its clock.
fn count_act(life: &mut Life<'_, '_>, stepped: Stepped)
    ensures { life.new ≡ record life.old { kit = record life.old.kit { meter = after_step life.old.kit.meter stepped (clock_in life.old.node.phase) } } }
{
    match stepped {
        Stepped::Acted => life.kit.meter.count_act(life.node.clock()),
        Stepped::Moved | Stepped::Blocked | Stepped::Held | Stepped::Ended => {}
    }
}

/// The rest of a turn that began so: the script's next line, what waits at the
/// gate, what goes out, and the rank's mark. Nothing waits then but misses of a
/// rank that goes on. A replay that is over has to be settled before.
#[tactic(auto, using(crate::proofs::ClearingLemmas::left_unspent, crate::proofs::ClearingLemmas::left_only))]
pub fn finish<'s, W: Wait, H: Hold>(
    rt: &W,
    shared: &Shared<'s, H>,
    life: &mut Life<'_, '_>,
    begun: Result<TurnStart, NodeFault>,
) -> After<'s>
    requires { settled_in life.old.node.phase ≡ life.old.node.phase }
    ensures killed { is_down result ≡ kills_after begun life.old.kit.plan life.old.node.phase }
    ensures at { GoesDownAt result life.new.node.phase }
    ensures lines { UsesLine result life.old.kit.plan life.new.kit.plan }
    ensures gate { ClearsTurn life.old life.new result }
    ensures same { SameLife life.old life.new }
{
    let after = match begun {
        Ok(begun) => end(rt, shared, life, begun),
        Err(fault) => Err(fault),
    };
    match after {
        Ok(after) => after,
        Err(fault) => leave_with_fault(rt, shared, life, fault),
    }
}

#[tactic(auto, using(crate::proofs::GateLemmas::took_still, crate::proofs::ClearingLemmas::left_stepped, crate::proofs::UsedLines::kill_used, crate::proofs::UsedLines::image_used))]
fn end<'s, W: Wait, H: Hold>(
    rt: &W,
    shared: &Shared<'s, H>,
    life: &mut Life<'_, '_>,
    begun: TurnStart,
) -> Result<After<'s>, NodeFault>
    ensures script { FollowsScript begun.stepped life.old life.new result }
    ensures images { TakesImage (images_after begun.stepped shared.now.limits.images_every life.old.kit.plan life.old.node.phase) life.old life.new result }
    ensures gate { LeavesGate (leaves_misses begun.stepped (images_after begun.stepped shared.now.limits.images_every life.old.kit.plan life.old.node.phase)
        life.old.kit.tally.is_spent life.old.node.phase) life.old life.new result }
    ensures same { SameLife life.old life.new }
{
    let order = order_after(begun.stepped, life);
    if let Some(killed) = kill_of(order, life.node.clock()) {
        life.kit.plan.use_one();
        return Ok(After::Crash(killed));
    }
    let is_imaged = images_after(order, begun.stepped, shared.limits.images_every, life);
    let is_asked = is_image(order);
    let put = let_out(rt, shared, life, begun.stepped, is_imaged, is_asked)?;
    let is_busy = match begun.stepped {
        Stepped::Moved | Stepped::Acted | Stepped::Held => true,
        Stepped::Blocked | Stepped::Ended => put || is_frames(begun.brought),
    };
    if is_busy {
        life.kit.tally.end_idleness();
        return Ok(After::Turn { is_idle: false });
    }
    match rest(shared, life, begun.stepped)? {
        Some(rest) => Ok(After::Leave(Why::AtRest(rest))),
        None => Ok(After::Turn { is_idle: true }),
    }
}

// What waits passes before frames go out, since a send that passes is outgoing
// from then on; and an image is taken before its word goes out.
#[tactic(auto, using(crate::proofs::GateLemmas::took_image))]
fn let_out<W: Wait, H>(
    rt: &W,
    shared: &Shared<'_, H>,
    life: &mut Life<'_, '_>,
    stepped: Stepped,
    is_imaged: bool,
    is_asked: bool,
) -> Result<bool, NodeFault>
    ensures lets { LetsOut (leaves_misses stepped is_imaged life.old.kit.tally.is_spent life.old.node.phase) is_imaged is_asked life.old life.new result }
{
    clear_gate(rt, shared, life, stepped, is_imaged, is_asked)?;
    Ok(put_out(shared, life)?)
}

/// A rank that has nothing left to replay runs from now on.
pub fn settle<'p, 'l>(life: Life<'p, 'l>) -> Life<'p, 'l>
    ensures settled { result.node.phase ≡ settled_in life.entry.node.phase }
    ensures rest { result ≡ record life.entry { node = result.node } }
    ensures same { SameLife life.entry result }
{
    let Life { node, kit } = life;
    Life {
        node: node.settle(),
        kit,
    }
}

// The rank can't go on, and all are to leave.
fn leave_with_fault<'s, W: Wait, H>(
    rt: &W,
    shared: &Shared<'s, H>,
    life: &mut Life<'_, '_>,
    fault: NodeFault,
) -> After<'s>
    ensures leaves { is_leave result ≡ true }
    ensures stays { is_down result ≡ false }
    ensures at { GoesDownAt result life.new.node.phase }
    ensures fault { life.new ≡ record life.old { kit = record life.old.kit { tally = record life.old.kit.tally { fault = Some fault } } } }
    ensures same { SameLife life.old life.new }
{
    let stopped = life.kit.tally.refuse(shared.stop_all(rt, fault));
    After::Leave(Why::Told(stopped))
}
