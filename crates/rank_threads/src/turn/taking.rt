//! Part 2 of a turn: what the lanes bring.
ghost use Rattle.std.specs.Prelude.{◌≡◌, ◌≢◌, ◌+◌, ◌<◌, ◌≤◌, length, IfOk, IfSome};
ghost use Rattle.std.specs.Option.{is_none};
ghost use Rattle.rank_threads.specs.Costs.{before_kind, log_size_in};
ghost use Rattle.rank_threads.specs.Lives.{KeepsGate};
ghost use Rattle.rank_threads.specs.Phases.{packets_in};
ghost use Rattle.rank_threads.specs.Taking.{TookFrom, TookBelow, at_once};
ghost use Rattle.rank_threads.specs.Turns.{Brings, is_frames};
ghost use Rattle.rank_threads.specs.Tally.{woken};

use crate::costs::{FrameKind, kind_of};
use crate::lanes_of::{LanesSeen, sees_frame, take_from};
use crate::life::Life;
use crate::shared::{NoRing, Shared};
use std::alloc::AllocError;

/// So many frames of a lane a rank takes in one turn at most. While so many packets
/// wait in its inbox, one that isn't blocked takes one frame of a lane: it has
/// enough to receive, and finds it sooner among fewer.
const BATCH: u8 = 16;

/// Takes what the lanes bring, by rising source, from each at most as many frames
/// as a turn takes, and answers whether a frame came. Each lane is looked at. An
/// `Err` means out of memory.
#[inline(always)]
#[tactic(auto, using(crate::proofs::TakingLemmas::some_at_once, crate::proofs::TakingLemmas::took_before, crate::proofs::TakingLemmas::took_next))]
pub fn take_in<H>(
    shared: &Shared<'_, H>,
    life: &mut Life<'_, '_>,
    looked: &mut LanesSeen,
) -> Result<bool, AllocError>
    requires { looked.old.below ≡ 0 }
    ensures looked { IfOk result (λ _. looked.new.below ≡ life.old.node.size) }
    ensures took { IfOk result (λ took. TookBelow life.old.node.size life.old life.new took) }
    ensures kept { KeepsGate life.old life.new }
{
    let most = frames_at_once(life);
    let mut took = false;
    for source in 0..life.node.size {
        took = take_all_from(shared, life, source, most, looked)? || took;
    }
    Ok(took)
}

fn frames_at_once(life: &Life<'_, '_>) -> u8
    ensures { result ≡ at_once life.now.kit.tally.is_blocked (length (packets_in life.now.node.phase)) }
{
    if !life.kit.tally.is_blocked && life.node.waiting_packets() >= usize::from(BATCH) {
        1
    } else {
        BATCH
    }
}

// Where it stops before the lane is empty it rings the rank's own bell. The rings for
// what is left may all be taken back by now, and nobody else need ring again: without
// one more the next turn would look at no lane, and the rank could wait for ever.
#[inline(always)]
#[tactic(auto, using(crate::proofs::TakingLemmas::took_laws, crate::proofs::LookLemmas::look_laws))]
fn take_all_from<H>(
    shared: &Shared<'_, H>,
    life: &mut Life<'_, '_>,
    source: u8,
    most: u8,
    looked: &mut LanesSeen,
) -> Result<bool, AllocError>
    requires source { source < life.old.node.size }
    requires most { 1 ≤ most }
    requires looked { looked.old.below ≡ source }
    ensures looked { IfOk result (λ _. looked.new.below ≡ source + 1) }
    ensures took { IfOk result (λ took. TookFrom source life.old life.new took) }
    ensures kept { KeepsGate life.old life.new }
{
    let mut took = false;
    for _ in 0..most {
        if !take_one(shared, life, source, looked)? {
            return Ok(took);
        }
        took = true;
    }
    shared.ring(life.kit.rank);
    Ok(took)
}

/// All lanes into a rank were looked at, and brought nothing. Only `drain_lanes`
/// makes one.
#[derive(Clone, Copy)]
pub struct EmptyLanes(LanesSeen);

/// Takes what the lanes bring, and says so where that is nothing. An `Err` is
/// refused memory.
#[inline(always)]
pub fn drain_lanes<H>(
    shared: &Shared<'_, H>,
    life: &mut Life<'_, '_>,
) -> Result<Option<EmptyLanes>, AllocError>
    ensures took { IfOk result (λ none. TookBelow life.old.node.size life.old life.new (is_none none)) }
    ensures looked { IfOk result (λ none. IfSome none (λ n. n.0.below ≡ life.old.node.size)) }
    ensures kept { KeepsGate life.old life.new }
{
    let mut looked = LanesSeen::none();
    if take_in(shared, life, &mut looked)? {
        return Ok(None);
    }
    Ok(Some(EmptyLanes(looked)))
}

/// What the lanes brought at the beginning of a turn.
#[derive(Clone, Copy)]
pub enum Arrivals {
    Frames,
    Nothing(EmptyLanes),
    /// Nobody has rung, so no lane was looked at.
    Unrung(NoRing),
}

/// Takes what the lanes bring, unless the rank's bell wasn't rung. An `Err` is
/// refused memory.
pub fn take_if_rung<H>(
    shared: &Shared<'_, H>,
    life: &mut Life<'_, '_>,
) -> Result<Arrivals, AllocError>
    ensures brings { IfOk result (λ brought. Brings brought life.old life.new) }
    ensures kept { KeepsGate life.old life.new }
{
    if let Some(unrung) = shared.take_ring(life.kit.rank) {
        return Ok(Arrivals::Unrung(unrung));
    }
    match drain_lanes(shared, life)? {
        Some(none) => Ok(Arrivals::Nothing(none)),
        None => Ok(Arrivals::Frames),
    }
}

/// Whether frames came.
pub fn is_frames(brought: Arrivals) -> bool
    ensures { result ≡ is_frames brought }
{
    match brought {
        Arrivals::Frames => true,
        Arrivals::Nothing(_) | Arrivals::Unrung(_) => false,
    }
}

// The next frame from this rank arrives, where one is seen. (A look in vain is so cheap as a function
// that holds a frame isn't, which clears room for it.)
#[inline(always)]
#[tactic(auto, using(crate::proofs::TakingLemmas::took_none, crate::proofs::TakingLemmas::took_behind))]
fn take_one<H>(
    shared: &Shared<'_, H>,
    life: &mut Life<'_, '_>,
    source: u8,
    looked: &mut LanesSeen,
) -> Result<bool, AllocError>
    requires { source < life.old.node.size }
    ensures next { looked.old.below ≡ source → looked.new.below ≡ source + 1 }
    ensures others { looked.old.below ≢ source → looked.new.below ≡ looked.old.below }
    ensures took { IfOk result (λ took. TookFrom source life.old life.new took) }
    ensures kept { KeepsGate life.old life.new }
{
    if !sees_frame(&mut life.kit.from, source, looked) {
        return Ok(false);
    }
    take_next(shared, life, source)
}

// The next frame from this rank arrives, where there is one.
#[inline(always)]
#[tactic(auto, using(crate::proofs::TakingLemmas::took_none, crate::proofs::TakingLemmas::took_frame))]
fn take_next<H>(
    shared: &Shared<'_, H>,
    life: &mut Life<'_, '_>,
    source: u8,
) -> Result<bool, AllocError>
    requires { source < life.old.node.size }
    ensures took { IfOk result (λ took. TookFrom source life.old life.new took) }
    ensures kept { KeepsGate life.old life.new }
{
    let Some(frame) = take_from(&mut life.kit.from, source) else {
        return Ok(false);
    };
    wake(shared, life);
    measure(life, kind_of(&frame));
    life.node.arrive(source, frame)?;
    Ok(true)
}

// A frame came. The mark is taken back before anything is done with it.
fn wake<H>(shared: &Shared<'_, H>, life: &mut Life<'_, '_>)
    ensures { life.new ≡ record life.old { kit = record life.old.kit { tally = woken life.old.kit.tally } } }
{
    if life.kit.tally.is_marked {
        life.kit.tally.unmark(shared.take_mark_back(life.kit.rank));
    }
    life.kit.tally.count_taken();
}

// What a frame of this kind may let go is measured before it arrives. The bytes
// are summed up only where the log keeps more messages than ever.
fn measure(life: &mut Life<'_, '_>, kind: FrameKind)
    ensures { life.new ≡ record life.old { kit = record life.old.kit { meter = before_kind life.old.kit.meter kind (log_size_in life.old.node.phase) } } }
{
    match kind {
        FrameKind::Notice => {
            if life.node.kept_messages() > life.kit.meter.costs.kept_most.messages {
                life.kit.meter.note_most(life.node.log_size());
            }
        }
        FrameKind::Message { .. } | FrameKind::Ask => {}
    }
}
