//! The branches that a run leaves behind.
ghost use Rattle.std.specs.Prelude.{◌<◌, OnOk, length};
ghost use Rattle.crash_free.specs.Sim.{Simulates};
ghost use Rattle.explore.specs.Moves.{AreOfRanks};
ghost use Rattle.explore.specs.Searching.{BranchesOff};
ghost use Rattle.explore.specs.Stems.{GoOff, stems_of};

use crate::branch::Branch;
use crate::moves::Move;
use crate::path::Path;
use crate::send_mode::SendMode;
use limits::Heap;
use std::alloc::AllocError;

/// Adds a branch for each of the moves but the first, so that the second is the
/// last one added. An `Err` means out of memory.
pub fn branch_off(
    mode: SendMode,
    path: &Path<'_>,
    moves: &[Move],
    pending: &mut Vec<Branch, Heap>,
) -> Result<(), AllocError>
    requires acts { AreOfRanks mode path.now.sim moves.now }
    requires some { 0 < length moves.now }
    requires off { GoOff mode path.now.sim.program (length path.now.sim.machines) path.now.sim.run pending.old.items }
    ensures branches { OnOk result (BranchesOff mode path.now.sim moves.now 1 (stems_of path.now.sim.run pending.old.items)
        (stems_of path.now.sim.run pending.new.items)) }
    ensures off { OnOk result (GoOff mode path.now.sim.program (length path.now.sim.machines) path.now.sim.run pending.new.items) }
{
    let shared = path.sim.as_sim().acts().len();
    let choices = path.choices.len();
    let mut at = moves.len();
    while at > 1 {
        at -= 1;
        let chosen = Some(moves[at]);
        pending.push(Branch {
            shared,
            chosen,
            choices,
        })?;
    }
    Ok(())
}
