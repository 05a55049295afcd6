//! What a world shows of a rank, by the rank's number in an event.
ghost use Rattle.std.specs.Prelude.{◌<◌, IfSome};
ghost use Rattle.bare_world.specs.World.{size};

use rank_node::{Frame, Phase};
use std::alloc::AllocError;
use world_model::World;

/// The rank of this number, if there is one.
fn rank_of(world: &World<'_>, number: u32) -> Option<u8>
    ensures { IfSome result (λ rank. rank < size world.now) }
{
    match u8::try_from(number) {
        Ok(rank) if rank < world.ranks() => Some(rank),
        Ok(_) | Err(_) => None,
    }
}

/// The clock of a rank; 0 where it is down or isn't there.
pub fn clock_of(world: &World<'_>, rank: u32) -> u32 {
    match rank_of(world, rank) {
        Some(rank) => world.view(rank).clock,
        None => 0,
    }
}

/// Whether a rank is live and replays nothing.
pub fn is_running(world: &World<'_>, rank: u32) -> bool {
    match rank_of(world, rank) {
        Some(rank) => {
            let view = world.view(rank);
            view.live && view.left == 0
        }
        None => false,
    }
}

/// Whether misses wait at a rank's gate, and nothing else.
pub fn misses_only(world: &World<'_>, rank: u32) -> bool {
    match rank_of(world, rank) {
        Some(rank) => match world.phase(rank) {
            Phase::Running(running) => running.misses_only(),
            Phase::Replaying(_) | Phase::Down(_) => false,
        },
        None => false,
    }
}

/// Whether something goes next from the source to a rank that isn't new there,
/// if that has the packets up to this number. An `Err` means out of memory.
pub fn is_known(
    world: &World<'_>,
    source: u32,
    dest: u32,
    arrived: u32,
) -> Result<bool, AllocError> {
    let (Some(source), Some(dest)) = (rank_of(world, source), rank_of(world, dest)) else {
        return Ok(false);
    };
    match world.phase(source).outgoing(dest) {
        Ok(Some(Frame::Data(packet))) => Ok(packet.number <= arrived),
        Ok(Some(Frame::Ask { .. } | Frame::Kept { .. })) => Ok(true),
        Ok(None) => Ok(false),
        Err(_) => Err(AllocError),
    }
}
