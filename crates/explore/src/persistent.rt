//! Ranks whose choices alone are enough for a search.
ghost use Rattle.std.specs.Prelude.{◌≡◌, ◌<◌, ℕ, true, false, length};
ghost use Rattle.rank_machine.specs.Acts.{IsNamed};
ghost use Rattle.crash_free.specs.Sim.{Simulates, start_of};
ghost use Rattle.explore.specs.Persistent.{IsPersistent};
ghost use Rattle.explore.specs.Settled.{AreOfProgram, HasSentAll, IsSettled};
ghost use Rattle.explore.specs.Silences.{IsTableOf};
ghost use Rattle.explore.specs.declared.send_mode.SendMode.TheVariants.{Buffered};

use crate::silences::{Silences, Sought};
use crash_free::Sim;
use matching::{Context, Selector};
use rank_machine::Want;

/// Whether the acts that this rank may make don't depend on what the other
/// ranks do next, as far as can be seen: each rank of which it may take or hit a
/// message has one there that is eligible, has ended, or has sent it all
/// that could match. A no may be wrong.
#[tactic(auto, using(crate::proofs::Persisting::persists_receive, crate::proofs::Persisting::persists_probe, crate::proofs::Persisting::persists_try))]
pub fn is_persistent(sim: &Sim<'_>, silences: &Silences, rank: u8) -> bool
    requires stands { Simulates sim.now }
    requires programs { AreOfProgram sim.now }
    requires table { IsTableOf sim.now.program silences.now }
    requires rank { rank < length sim.now.machines }
    ensures { result ≡ true → IsPersistent Buffered (start_of sim.now.program (length sim.now.machines)) (length sim.now.machines) sim.now.run rank }
{
    match sim.wants(rank) {
        Want::Receive(selector) => are_settled(sim, silences, rank, &selector),
        Want::Probe(selector) => are_settled(sim, silences, rank, &selector),
        Want::TryProbe(selector) => are_settled(sim, silences, rank, &selector),
        // behind a step of its own it may ask for anything
        Want::Internal => false,
        Want::Send { .. } => true,
        Want::Print(_) => true,
        Want::Halted => true,
        Want::Faulted(_) => true,
    }
}

// Whether what the rank may take or hit of each source stays as it is.
fn are_settled(sim: &Sim<'_>, silences: &Silences, rank: u8, selector: &Selector) -> bool
    requires stands { Simulates sim.now }
    requires programs { AreOfProgram sim.now }
    requires table { IsTableOf sim.now.program silences.now }
    requires rank { rank < length sim.now.machines }
    ensures { result ≡ true → (source : ℕ) → IsSettled sim.now rank selector.now source }
{
    let ranks = sim.ranks();
    let mut source = 0;
    while source < ranks {
        if !is_settled(sim, silences, rank, selector, source) {
            return false;
        }
        source += 1;
    }
    true
}

// The same of this source: it is the rank itself, or another that isn't named, or one that has a
// message there, in front of all that it may send yet, or it has sent all that could match.
#[tactic(auto, using(crate::proofs::Persisting::itself_settled, crate::proofs::Persisting::first_settled, crate::proofs::Persisting::sent_settled))]
fn is_settled(sim: &Sim<'_>, silences: &Silences, rank: u8, selector: &Selector, source: u8) -> bool
    requires stands { Simulates sim.now }
    requires programs { AreOfProgram sim.now }
    requires table { IsTableOf sim.now.program silences.now }
    requires rank { rank < length sim.now.machines }
    requires source { source < length sim.now.machines }
    ensures { result ≡ true → IsSettled sim.now rank selector.now source }
{
    if source == rank {
        return true;
    }
    if !may_be_of(selector, source) {
        return true;
    }
    match sim.eligible(rank, selector, source) {
        Some(_) => true,
        None => has_sent_all(sim, silences, source, rank, selector),
    }
}

// Whether the selector names this source, or none.
fn may_be_of(selector: &Selector, source: u8) -> bool
    ensures { result ≡ false → IsNamed selector.now.source source → ⊥ }
{
    match selector.source {
        Some(named) => named == source,
        None => true,
    }
}

// Whether the source sends the rank no more messages of this selector's context and tag: it has
// ended, or stands where no send is behind that may be one. Of collectives the table says nothing.
fn has_sent_all(
    sim: &Sim<'_>,
    silences: &Silences,
    source: u8,
    rank: u8,
    selector: &Selector,
) -> bool
    requires stands { Simulates sim.now }
    requires programs { AreOfProgram sim.now }
    requires table { IsTableOf sim.now.program silences.now }
    requires source { source < length sim.now.machines }
    ensures { result ≡ true → HasSentAll sim.now rank selector.now.context selector.now.tag source }
{
    match sim.wants(source) {
        Want::Halted => true,
        Want::Faulted(_) => true,
        Want::Internal
        | Want::Send { .. }
        | Want::Receive(_)
        | Want::Probe(_)
        | Want::TryProbe(_)
        | Want::Print(_) => match selector.context {
            Context::PointToPoint => {
                let sought = Sought {
                    ranks: sim.ranks(),
                    sender: source,
                    receiver: rank,
                    tag: selector.tag,
                };
                silences.claim(sought, sim.machine(source).position())
            }
            Context::Collective => false,
        },
    }
}
