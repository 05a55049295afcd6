//! The shelf of a rank, whatever it does, and copies of it on another.
ghost use Rattle.std.specs.Prelude.{◌≡◌, IfErr, IfOk};
ghost use Rattle.rank_node.specs.Phases.{stable_in, phase_with};

use crate::phase::Phase;
use checkpoint::Shelf;
use limits::Heap;

impl<'p, S: Shelf, D> Phase<'p, S, D> {
    /// The shelf of the rank.
    pub fn shelf(&self) -> &S
        ensures { result.now ≡ (stable_in self.now).shelf }
    {
        match self {
            Phase::Running(rank) => rank.stable.shelf(),
            Phase::Replaying(rank) => rank.running.stable.shelf(),
            Phase::Down(rank) => rank.stable.shelf(),
        }
    }

    /// The same rank, in memory of its own, with this desk and this shelf. An
    /// `Err` means out of memory, and gives back what was given.
    pub fn copy(&self, alloc: Heap, desk: D, shelf: S) -> Result<Phase<'p, S, D>, (D, S)>
        ensures ok { IfOk result (λ copy. copy ≡ phase_with self.now desk shelf) }
        ensures err { IfErr result (λ back. back ≡ (desk, shelf)) }
    {
        let copy = match self {
            Phase::Running(rank) => Phase::Running(rank.copy(alloc, desk, shelf)?),
            Phase::Replaying(rank) => Phase::Replaying(rank.copy(alloc, desk, shelf)?),
            Phase::Down(rank) => Phase::Down(rank.copy(desk, shelf)),
        };
        Ok(copy)
    }
}
