//! Which of the moves that are open a search goes on with.
ghost use Rattle.std.specs.Prelude.{◌≡◌, IfSome};
ghost use Rattle.std.specs.List.{filter, list_any};
ghost use Rattle.crash_free.specs.Sim.{Simulates};
ghost use Rattle.explore.specs.Narrowing.{AreKept, IsEnough, is_of};
ghost use Rattle.explore.specs.Settled.{AreOfProgram};
ghost use Rattle.explore.specs.Silences.{IsTableOf};
ghost use Rattle.explore.specs.declared.send_mode.SendMode.TheVariants.{Buffered};

use crate::moves::Move;
use crate::persistent::is_persistent;
use crate::silences::Silences;
use crash_free::Sim;
use limits::Heap;

/// Keeps the moves of one rank alone, if they are enough: those of the first rank
/// that has moves, and whose acts don't depend on what the others do next, as far
/// as can be seen. Else all stay.
pub fn keep_persistent(sim: &Sim<'_>, silences: &Silences, moves: &mut Vec<Move, Heap>)
    requires stands { Simulates sim.now }
    requires programs { AreOfProgram sim.now }
    requires table { IsTableOf sim.now.program silences.now }
    ensures kept { AreKept Buffered sim.now moves.old.items moves.new.items }
{
    if let Some(rank) = first_persistent(sim, silences, moves) {
        keep_own(moves, rank);
    }
}

// The first rank that has moves, and whose acts are persistent.
fn first_persistent(sim: &Sim<'_>, silences: &Silences, moves: &[Move]) -> Option<u8>
    requires stands { Simulates sim.now }
    requires programs { AreOfProgram sim.now }
    requires table { IsTableOf sim.now.program silences.now }
    ensures enough { IfSome result (λ rank. IsEnough Buffered sim.now moves.now rank) }
{
    let ranks = sim.ranks();
    let mut rank = 0;
    while rank < ranks {
        if has_own(moves, rank) && is_persistent(sim, silences, rank) {
            return Some(rank);
        }
        rank += 1;
    }
    None
}

// Whether one of the moves is of this rank.
fn has_own(moves: &[Move], rank: u8) -> bool
    ensures { result ≡ list_any (is_of rank) moves.now }
{
    moves.iter().any(|each| each.rank == rank)
}

// Keeps the moves of this rank, in their order.
fn keep_own(moves: &mut Vec<Move, Heap>, rank: u8)
    ensures { moves.new.items ≡ filter (is_of rank) moves.old.items }
{
    moves.retain(|each| each.rank == rank);
}
