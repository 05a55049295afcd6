//! Part 7 of a turn: in an idle one a rank marks itself, and looks whether all
//! may leave (termination detection).
ghost use Rattle.std.specs.Prelude.{◌≡◌, ◌≢◌, ℕ, ◌<◌, false, IfOk, slice_index_or};
ghost use Rattle.rank_threads.specs.Lives.{KeepsGate};
ghost use Rattle.rank_threads.specs.Resting.{Rests};

mod marks;

use crate::life::Life;
use crate::shared::Shared;
use crate::turn::{Stepped, drain_lanes};
use limits::Heap;
pub use marks::{AllAtRest, Mark};
use marks::{first_look, second_look};
use std::alloc::AllocError;

/// What an idle turn leads to: the rank leaves where all are at rest.
///
/// A rank that owes no other a frame marks itself: at once where it has ended
/// or steps no more, and where it waits, after as many idle turns as the limits
/// say, in which no other rank's row has grown.
#[tactic(auto, using(crate::proofs::RestingLemmas::resting_laws))]
pub fn rest<H>(
    shared: &Shared<'_, H>,
    life: &mut Life<'_, '_>,
    stepped: Stepped,
) -> Result<Option<AllAtRest>, AllocError>
    ensures rests { life.old.kit.tally.is_marked ≡ false → IfOk result (λ _. Rests shared.now.limits.idle stepped life.old.kit.tally life.new.kit.tally) }
    ensures kept { KeepsGate life.old life.new }
{
    if life.kit.tally.is_marked {
        return may_leave(shared, life);
    }
    if life.kit.tally.may_owe {
        return Ok(None);
    }
    match stepped {
        Stepped::Moved | Stepped::Acted | Stepped::Held => return Ok(None),
        Stepped::Blocked => {
            let waited = life.kit.tally.count_idle(shared.limits.idle);
            if !waited || look_for_growth(shared.alloc, life)? {
                return Ok(None);
            }
        }
        Stepped::Ended => {}
    }
    let marked = shared.set_mark(life.kit.rank, life.kit.tally.put, life.kit.tally.taken);
    life.kit.tally.mark(marked);
    Ok(None)
}

// Between two looks that see the same marks, all of this rank's lanes are looked at once more.
fn may_leave<H>(
    shared: &Shared<'_, H>,
    life: &mut Life<'_, '_>,
) -> Result<Option<AllAtRest>, AllocError>
    ensures kept { KeepsGate life.old life.new }
{
    let Some(first) = first_look(shared.marks) else {
        return Ok(None);
    };
    let Some(none) = drain_lanes(shared, life)? else {
        life.kit.tally.end_idleness();
        return Ok(None);
    };
    Ok(second_look(shared.marks, &first, none))
}

// Whether another row has grown since the last reads. All are read.
fn look_for_growth(alloc: Heap, life: &mut Life<'_, '_>) -> Result<bool, AllocError>
    ensures quiet { IfOk result (λ went_on. went_on ≡ false → life.new.kit.tally ≡ life.old.kit.tally) }
    ensures tally { life.new.kit.tally ≡ record life.old.kit.tally { seen = life.new.kit.tally.seen } }
    ensures kept { KeepsGate life.old life.new }
{
    let mut went_on = false;
    for of in 0..life.node.size {
        if of != life.kit.rank {
            went_on = note_growth(alloc, life, of)? || went_on;
        }
    }
    Ok(went_on)
}

// Whether that row has grown since the last read. Only of that row it is noted
// how far the rank has read.
#[tactic(auto, using(crate::proofs::PuttingLemmas::set_elsewhere))]
fn note_growth(alloc: Heap, life: &mut Life<'_, '_>, of: u8) -> Result<bool, AllocError>
    requires { of < life.old.node.size }
    ensures quiet { IfOk result (λ grown. grown ≡ false → life.new.kit.tally ≡ life.old.kit.tally) }
    ensures others { (k : ℕ) → k ≢ of → slice_index_or life.new.kit.tally.seen k 0 ≡ slice_index_or life.old.kit.tally.seen k 0 }
    ensures tally { life.new.kit.tally ≡ record life.old.kit.tally { seen = life.new.kit.tally.seen } }
    ensures kept { KeepsGate life.old life.new }
{
    let after = life.kit.tally.seen_in(of);
    let events = life.node.read(alloc, of, after)?;
    let Some(last) = events.last() else {
        return Ok(false);
    };
    life.kit.tally.note_seen(of, last.receiver_clock());
    Ok(true)
}
