//! Where each act of a run was made.
ghost use Rattle.std.specs.Prelude.{◌≡◌, ◌≤◌, ◌<◌, ◌+◌, IfOk, OnOk, length, min, slice_index_or, slice_set};
ghost use Rattle.limits.specs.Limits.{most_ranks};
ghost use Rattle.run_shown.specs.Trace.Places.{AreFound, IsMadeAt, greatest_told, is_try};
ghost use Rattle.run_shown.specs.Trace.Clocks.{AreCounted};

mod seen;

use crate::trace::place::Place;
use crash_free::{Passed, Sim};
use limits::{Heap, MOST_RANKS};
use rank_language::Program;
use rank_machine::Want;
use seen::is_there;
use std::alloc::AllocError;

/// Where each act of a run of the program was made, in the order of the acts: the
/// run is made once more, and each act is told where it is seen to be made again.
///
/// An `Err` means out of memory, where `audit::find_run` found the run. Of other acts
/// it also says that one of them couldn't be made where the ones before it lead.
pub fn places_of(
    alloc: Heap,
    program: &Program,
    ranks: u8,
    acts: &[Passed],
) -> Result<Vec<Place, Heap>, AllocError>
    requires some { 1 ≤ ranks }
    requires few { ranks ≤ most_ranks }
    ensures { IfOk result (λ places. AreFound program.now ranks acts.now places.items) }
{
    let mut sim = Sim::new(alloc, program, ranks)?;
    let mut clocks = [0u32; MOST_RANKS];
    let mut places = Vec::new(alloc);
    for passed in acts {
        let place = made(&mut sim, &mut clocks, passed)?;
        places.push(place)?;
    }
    Ok(places)
}

// Makes the act, and says where.
#[tactic(auto, using(crate::proofs::TraceLaws::PlacesLemmas::made_at))]
fn made(
    sim: &mut Sim<'_>,
    clocks: &mut [u32; MOST_RANKS],
    passed: &Passed,
) -> Result<Place, AllocError>
    requires few { length sim.old.machines ≤ most_ranks }
    requires counted { AreCounted sim.old.run clocks.old }
    ensures ok { IfOk result (λ place. IsMadeAt sim.old passed.now place sim.new) }
    ensures counted { OnOk result (AreCounted sim.new.run clocks.new) }
    ensures ranks { OnOk result (length sim.new.machines ≡ length sim.old.machines) }
{
    let rank = passed.rank;
    if rank >= sim.ranks() {
        return Err(AllocError);
    }
    let before = sim.acts().len();
    sim.stride(rank, u32::MAX);
    let position = sim.machine(rank).position();
    let tries = is_try(sim.wants(rank));
    if sim.act(rank, passed.act.choice()).is_err() {
        return Err(AllocError);
    }
    if !is_there(sim.acts(), before, passed) {
        return Err(AllocError);
    }
    let clock = next_clock(clocks, rank);
    Ok(Place {
        clock,
        position,
        tries,
    })
}

// Counts an act of the rank, and answers its clock.
fn next_clock(clocks: &mut [u32; MOST_RANKS], rank: u8) -> u32
    requires { rank < most_ranks }
    ensures value { result ≡ min (slice_index_or clocks.old rank 0 + 1) greatest_told }
    ensures kept { clocks.new ≡ slice_set clocks.old rank result }
{
    let clock = clocks[usize::from(rank)].saturating_add(1);
    clocks[usize::from(rank)] = clock;
    clock
}

fn is_try(want: Want) -> bool
    ensures { result ≡ is_try want }
{
    match want {
        Want::TryProbe(_) => true,
        Want::Internal
        | Want::Send { .. }
        | Want::Receive(_)
        | Want::Probe(_)
        | Want::Print(_)
        | Want::Halted
        | Want::Faulted(_) => false,
    }
}
