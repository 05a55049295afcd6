//! The lanes between each two ranks of a run, a rank and itself included: made
//! at once and closed at once.
ghost use Rattle.std.specs.Prelude.{◌≡◌, ◌+◌, [], IfOk, OnOk, length, map, replicate, vec_len};
ghost use Rattle.std.specs.List.{All};
ghost use Rattle.limits.specs.Limits.{most_frames};
ghost use Rattle.ports.specs.Crossed.{grow};
ghost use Rattle.ports.specs.AllLanes.{to_names, from_names, AreCrossed, ArePairs, HaveRoom, NonePut, NoneTaken, all_put, all_taken, counted_to};
ghost use Rattle.ports.specs.Lanes.{lane_from, taken_of};

use crate::lanes::{Carried, Rx, Tx, close, lane};
use limits::{Heap, MOST_FRAMES};
use std::alloc::AllocError;

/// The ends of the lanes between each two ranks.
#[derive(Drop)]
pub struct Ends {
    /// Those that put: by source, and there by destination.
    pub to: Vec<Vec<Tx, Heap>, Heap>,
    /// Those that take: by destination, and there by source.
    pub from: Vec<Vec<Rx, Heap>, Heap>,
}

/// A lane from each of so many ranks to each, itself included, each for `MOST_FRAMES` of
/// `limits`. An error means out of memory.
pub fn open_all(alloc: Heap, ranks: u8) -> Result<Ends, AllocError>
    ensures crossed { IfOk result (λ ends. AreCrossed ends.to.items ends.from.items) }
    ensures sizes { IfOk result (λ ends. (vec_len ends.to ≡ ranks) × (vec_len ends.from ≡ ranks)) }
    ensures to { IfOk result (λ ends. All (λ row. vec_len row ≡ ranks) ends.to.items) }
    ensures from { IfOk result (λ ends. All (λ column. vec_len column ≡ ranks) ends.from.items) }
    ensures pairs { IfOk result (λ ends. ArePairs ranks (to_names ends.to.items) (from_names ends.from.items)) }
    ensures room { IfOk result (λ ends. HaveRoom ends.to.items) }
    ensures put { IfOk result (λ ends. NonePut ends.to.items) }
    ensures taken { IfOk result (λ ends. NoneTaken ends.from.items) }
{
    let mut to = no_lanes(alloc, ranks)?;
    let mut from = Vec::new(alloc);
    for _ in 0..ranks {
        let column = open_into(alloc, &mut to)?;
        from.push(column)?;
    }
    Ok(Ends { to, from })
}

fn no_lanes(alloc: Heap, ranks: u8) -> Result<Vec<Vec<Tx, Heap>, Heap>, AllocError>
    ensures names { IfOk result (λ to. to_names to.items ≡ replicate ranks []) }
    ensures size { IfOk result (λ to. vec_len to ≡ ranks) }
    ensures room { IfOk result (λ to. HaveRoom to.items) }
    ensures put { IfOk result (λ to. NonePut to.items) }
{
    let mut to = Vec::new(alloc);
    for _ in 0..ranks {
        to.push(Vec::new(alloc))?;
    }
    Ok(to)
}

// How many frames a lane has room for.
fn room() -> usize
    ensures { result ≡ most_frames }
{
    MOST_FRAMES
}

// A lane from each rank to one more, which takes from them.
fn open_into(alloc: Heap, to: &mut Vec<Vec<Tx, Heap>, Heap>) -> Result<Vec<Rx, Heap>, AllocError>
    requires room { HaveRoom to.old.items }
    requires put { NonePut to.old.items }
    ensures names { IfOk result (λ column. to_names to.new.items ≡ grow (to_names to.old.items) (map lane_from column.items)) }
    ensures whole { IfOk result (λ column. length column.items ≡ vec_len to.old) }
    ensures size { vec_len to.new ≡ vec_len to.old }
    ensures room { OnOk result (HaveRoom to.new.items) }
    ensures put { OnOk result (NonePut to.new.items) }
    ensures taken { IfOk result (λ column. All (λ rx. taken_of rx ≡ []) column.items) }
{
    let mut column = Vec::new(alloc);
    for source in 0..to.len() {
        let (tx, rx) = lane(alloc, room())?;
        to[source].push(tx)?;
        column.push(rx)?;
    }
    Ok(column)
}

/// Closes all lanes, and answers how many frames were put into them and taken
/// from them. Frames that weren't taken are dropped.
pub fn close_all(ends: Ends) -> Carried
    requires { AreCrossed ends.to.items ends.from.items }
    ensures put { result.put ≡ counted_to (all_put ends.to.items) }
    ensures taken { result.taken ≡ counted_to (all_taken ends.from.items) }
{
    let Ends { mut to, mut from } = ends;
    let mut all = Carried { put: 0, taken: 0 };
    while let Some(column) = from.pop() {
        let mut column = column;
        while let Some(rx) = column.pop() {
            let Some(tx) = to[column.len()].pop() else {
                unreachable!()
            };
            all = together(all, close(tx, rx));
        }
    }
    all
}

// What two parts of the lanes carried.
fn together(one: Carried, other: Carried) -> Carried
    ensures put { result.put ≡ counted_to (one.put + other.put) }
    ensures taken { result.taken ≡ counted_to (one.taken + other.taken) }
{
    Carried {
        put: one.put.saturating_add(other.put),
        taken: one.taken.saturating_add(other.taken),
    }
}
