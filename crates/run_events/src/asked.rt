//! What each act of a run was asked for by.
ghost use Rattle.std.specs.Prelude.{◌<◌, ◌≤◌, length};
ghost use Rattle.limits.specs.Limits.{most_ranks};

use crate::fault::PlayFault;
use crash_free::{NotAllowed, Passed, Sim};
use limits::{Heap, MOST_EVENT_LINES};
use matching::Selector;
use rank_language::Program;
use rank_machine::Want;

/// What a rank did before an act of its own, and which messages that act asked for.
#[derive(Clone, Copy)]
pub struct Asked {
    /// How many steps of its own it made since its act before.
    pub steps: u32,
    /// What a receive or a probe names.
    pub selector: Option<Selector>,
}

/// What each act of a run was asked for by, in the order of the acts, and how
/// many steps of its own each rank makes behind its last act, up to where it
/// ends or waits.
#[derive(Drop)]
pub struct AskedAll {
    pub acts: Vec<Asked, Heap>,
    pub rests: Vec<u32, Heap>,
}

/// The same, of a run of the program: it is made once more. Steps of a rank's own
/// that are more than the events of a world may be are `TooManyEvents`.
pub fn asked_of(
    alloc: Heap,
    program: &Program,
    ranks: u8,
    run: &Sim<'_>,
) -> Result<AskedAll, PlayFault>
    requires some { 1 ≤ ranks }
    requires few { ranks ≤ most_ranks }
{
    let mut sim = Sim::new(alloc, program, ranks)?;
    let mut all = AskedAll {
        acts: Vec::new(alloc),
        rests: Vec::new(alloc),
    };
    match note(&mut all, &mut sim, run) {
        Ok(()) => Ok(all),
        Err(fault) => {
            drop(all);
            Err(fault)
        }
    }
}

// Makes the run once more, and notes what asked for its acts.
fn note(all: &mut AskedAll, sim: &mut Sim<'_>, run: &Sim<'_>) -> Result<(), PlayFault> {
    for passed in run.acts() {
        let asked = made(sim, passed)?;
        all.acts.push(asked)?;
    }
    for rank in 0..sim.ranks() {
        let rest = if is_over(run, rank) {
            stride(sim, rank)?
        } else {
            0
        };
        all.rests.push(rest)?;
    }
    Ok(())
}

// Makes the act, and says what asked for it.
fn made(sim: &mut Sim<'_>, passed: &Passed) -> Result<Asked, PlayFault> {
    let rank = passed.rank;
    let steps = stride(sim, rank)?;
    if rank >= sim.ranks() {
        return Err(PlayFault::NoOrder);
    }
    let selector = selector_of(sim.wants(rank));
    match sim.act(rank, passed.act.choice()) {
        Ok(()) => Ok(Asked { steps, selector }),
        Err(NotAllowed::Memory) => Err(PlayFault::Memory),
        // the acts are no run of the program
        Err(NotAllowed::WantsOther | NotAllowed::NotEligible | NotAllowed::Ended) => {
            Err(PlayFault::NoOrder)
        }
    }
}

// Makes the steps of the rank's own that it makes next, and says how many.
fn stride(sim: &mut Sim<'_>, rank: u8) -> Result<u32, PlayFault> {
    if rank >= sim.ranks() {
        return Err(PlayFault::NoOrder);
    }
    let most = MOST_EVENT_LINES as u32;
    let steps = sim.stride(rank, most);
    if steps < most {
        Ok(steps)
    } else {
        Err(PlayFault::TooManyEvents)
    }
}

/// Whether the rank ended in the run, or waits for a message that isn't there.
pub fn is_over(run: &Sim<'_>, rank: u8) -> bool {
    if rank >= run.ranks() {
        return false;
    }
    match run.wants(rank) {
        Want::Halted | Want::Faulted(_) => true,
        Want::Receive(selector) | Want::Probe(selector) => has_none(run, rank, &selector),
        Want::Internal | Want::Send { .. } | Want::TryProbe(_) | Want::Print(_) => false,
    }
}

// A rank that a limit stopped may stand at a receive though its message is there.
fn has_none(run: &Sim<'_>, rank: u8, selector: &Selector) -> bool
    requires { rank < length run.now.machines }
{
    let ranks = run.ranks();
    let mut source = 0;
    while source < ranks {
        if run.eligible(rank, selector, source).is_some() {
            return false;
        }
        source += 1;
    }
    true
}

fn selector_of(want: Want) -> Option<Selector> {
    match want {
        Want::Receive(selector) | Want::Probe(selector) | Want::TryProbe(selector) => {
            Some(selector)
        }
        Want::Internal | Want::Send { .. } | Want::Print(_) | Want::Halted | Want::Faulted(_) =>
            None,
    }
}
