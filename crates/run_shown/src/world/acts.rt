//! The act that a step of a rank makes.
ghost use Rattle.std.specs.Prelude.{◌≡◌, ◌<◌, IfOk};
ghost use Rattle.bare_world.specs.World.{size};
ghost use Rattle.run_shown.specs.World.Acts.{IsOutlookOf, determinant_of, in_row, last_determinant, newest, stands_for};

use crate::json::Object;
use crate::world::determinants::determinant_object;
use crate::world::standing::RankAtWork;
use crate::world::wants::want_object;
use checkpoint::MemoryShelf;
use event_logger::Event;
use limits::Heap;
use rank_machine::Want;
use rank_node::{Phase, Waiting};
use std::alloc::AllocError;
use world_model::World;

/// What a rank does with its next step.
#[derive(Clone, Copy)]
pub struct Outlook {
    pub want: Want,
    /// Whether its next act has passed the gate before: it is made again.
    pub again: bool,
}

/// What the rank does with its next step; nothing if it is down.
pub fn outlook_of(world: &World<'_>, rank: u8) -> Option<Outlook>
    requires { rank < size world.now }
    ensures { IsOutlookOf world.now rank result }
{
    let want = match world.phase(rank) {
        Phase::Running(running) => running.wants(),
        Phase::Replaying(replaying) => replaying.wants(),
        Phase::Down(_) => return None,
    };
    let view = world.view(rank);
    let again = (view.clock as usize) < view.acts;
    Some(Outlook { want, again })
}

/// The act that the rank made last: what it wanted for it, its clock, and its
/// determinant if it is a reception or the answer of a probe.
pub fn act_object(alloc: Heap, world: &World<'_>, rank: u8, outlook: Outlook) -> Object
    requires { rank < size world.now }
{
    let mut object = want_object(alloc, outlook.want);
    object.number("clock", u64::from(world.phase(rank).clock()));
    object.flag("again", outlook.again);
    match outlook.want {
        Want::Receive(_) | Want::Probe(_) | Want::TryProbe(_) => {
            put_determinant_of(alloc, &mut object, world, rank);
        }
        Want::Send { .. } | Want::Print(_) => {}
        Want::Internal | Want::Halted | Want::Faulted(_) => {}
    }
    object
}

fn put_determinant_of(alloc: Heap, object: &mut Object, world: &World<'_>, rank: u8)
    requires { rank < size world.now }
{
    match last_determinant(alloc, world.phase(rank), world.row(rank)) {
        Ok(Some(event)) => object.object("determinant", determinant_object(alloc, event)),
        Ok(None) => {}
        Err(error) => object.fail(error),
    }
}

// The determinant of the act that a rank with this row made last, if it has one.
// An `Err` means out of memory.
fn last_determinant(
    alloc: Heap,
    phase: &Phase<'_, MemoryShelf, ()>,
    row: &[Event],
) -> Result<Option<Event>, AllocError>
    ensures { IfOk result (λ event. event ≡ last_determinant phase.now row.now) }
{
    match RankAtWork::of(alloc, phase)? {
        Some(standing) => Ok(determinant_of(standing.waiting.as_slice(), row, standing.clock)),
        None => Ok(None),
    }
}

// The determinant of the act of this clock: what waits last at the gate, if it
// stands for that act, or else the one in the row that does.
fn determinant_of(waiting: &[Waiting], row: &[Event], clock: u32) -> Option<Event>
    ensures { result ≡ determinant_of (newest waiting.now) row.now clock }
{
    match waiting.last() {
        Some(Waiting::Event(event)) if stands_for(*event, clock) => Some(*event),
        Some(Waiting::Event(_) | Waiting::Send { .. } | Waiting::Line { .. }) | None => {
            in_row(row, clock)
        }
    }
}

// The first in the row that stands for the act of this clock.
fn in_row(row: &[Event], clock: u32) -> Option<Event>
    ensures { result ≡ in_row row.now clock }
{
    let mut rest = row;
    while let [event, more @ ..] = rest {
        if stands_for(*event, clock) {
            return Some(*event);
        }
        rest = more;
    }
    None
}

// Whether the event stands for the act of this clock.
fn stands_for(event: Event, clock: u32) -> bool
    ensures { result ≡ stands_for clock event }
{
    event.first_clock() <= clock && clock <= event.receiver_clock()
}
