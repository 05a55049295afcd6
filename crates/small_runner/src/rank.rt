//! One of the ranks, and the parts of its turn.
ghost use Rattle.std.specs.Prelude.{◌≡◌, ◌<◌, Some, IfOk, OnOk, IsSome};
ghost use Rattle.small_runner.specs.Occupant.{outgoing_at, IsRank, NoneWaits};

use crate::around::{Around, Parcel, RANKS};
use crate::gate;
use checkpoint::MemoryShelf;
use ports::ConsoleState;
use rank_machine::Want;
use rank_node::{Frame, NodeFault, Phase, Running, Stable, Turn};

// How many steps a rank makes in a turn, at most.
const STEPS: u32 = 8;

// How many frames it puts on a wire in a turn, at most.
const FRAMES: u32 = 16;

/// One of the ranks, with a shelf in memory. It has no desk, since the logger is this thread's own. It must be ended.
pub struct Rank<'p> {
    number: u8,
    // none only while the rank goes from one phase to another
    occupant: Option<Phase<'p, MemoryShelf, ()>>,
    ghost there: { number < 2 },
    ghost own: { IsRank number occupant },
}

impl<'p> Rank<'p> {
    /// The rank of this number, at the beginning of the program.
    pub fn start(around: &Around<'p>, number: u8) -> Result<Rank<'p>, NodeFault>
        requires { number < 2 }
    {
        let stable = Stable::new((), MemoryShelf::new(around.alloc), number, RANKS);
        match Running::start(around.alloc, around.program, stable) {
            Ok(rank) => Ok(Rank {
                number,
                occupant: Some(Phase::Running(rank)),
            }),
            Err((stable, fault)) => {
                stable.parts();
                Err(fault)
            }
        }
    }

    /// Ends the rank.
    pub fn end(self) {
        let Rank {
            number: _,
            occupant,
        } = self;
        end(occupant);
    }

    /// How many acts it has made.
    pub fn clock(&self) -> u32 {
        match &self.occupant {
            Some(rank) => rank.clock(),
            None => 0,
        }
    }

    /// How many events it has to replay.
    pub fn left(&self) -> u32 {
        match &self.occupant {
            Some(rank) => rank.left(),
            None => 0,
        }
    }

    /// Whether it is down.
    pub fn is_down(&self) -> bool {
        matches!(&self.occupant, Some(Phase::Down(_)))
    }

    /// Whether it has come to the end of its program.
    pub fn has_halted(&self) -> bool {
        match &self.occupant {
            Some(Phase::Running(rank)) => rank.wants() == Want::Halted,
            Some(Phase::Replaying(_) | Phase::Down(_)) | None => false,
        }
    }

    /// The rank crashes: what is stable outlives it, and nothing else does.
    pub fn crash(&mut self) {
        if let Some(rank) = self.occupant.take() {
            self.put(Phase::Down(rank.crash()));
        }
    }

    /// A rank that is down begins again at its image, or at the beginning of the program, with its row to replay.
    pub fn restart(&mut self, around: &mut Around<'p>) -> Result<(), NodeFault> {
        let row = around.row_of(self.number)?;
        let down = match self.occupant.take() {
            Some(Phase::Down(down)) => down,
            Some(other) => {
                self.put(other);
                return Ok(());
            }
            None => return Ok(()),
        };
        match down.restart(around.alloc, around.program, row) {
            Ok(replaying) => {
                self.put(Phase::Replaying(replaying));
                Ok(())
            }
            Err((down, fault)) => {
                self.put(Phase::Down(down));
                Err(fault)
            }
        }
    }

    /// Takes in the frames that are on their way to it. Where it is down they are lost.
    pub fn take_in(&mut self, around: &mut Around<'p>) -> Result<(), NodeFault> {
        for parcel in around.take(self.number) {
            self.arrive(parcel)?;
        }
        Ok(())
    }

    fn arrive(&mut self, parcel: Parcel) -> Result<(), NodeFault> {
        let Parcel { from, frame } = parcel;
        let Some(rank) = &mut self.occupant else {
            return Ok(());
        };
        match rank.arrive(from, frame) {
            Ok(_) => Ok(()),
            Err((_, fault)) => Err(fault),
        }
    }

    /// Makes steps until it waits or has ended, or has made as many as it may.
    pub fn step(&mut self, around: &mut Around<'p>) -> Result<(), NodeFault> {
        for _ in 0..STEPS {
            if self.step_once(&mut around.console)? != Turn::Moved {
                break;
            }
        }
        Ok(())
    }

    // Where nothing is left to replay then, it runs.
    fn step_once(&mut self, console: &mut ConsoleState) -> Result<Turn, NodeFault> {
        let turn = match &mut self.occupant {
            Some(Phase::Running(rank)) => rank.step(console)?,
            Some(Phase::Replaying(rank)) if rank.left() > 0 => rank.step(console)?,
            Some(Phase::Replaying(_)) => Turn::Moved,
            Some(Phase::Down(_)) | None => Turn::Blocked,
        };
        if let Some(rank) = self.occupant.take() {
            self.put(rank.settled());
        }
        Ok(turn)
    }

    /// What waits at its gate passes.
    pub fn clear_gate(&mut self, around: &mut Around<'p>) -> Result<(), NodeFault>
        ensures { OnOk result (NoneWaits self.new.occupant) }
    {
        match &mut self.occupant {
            Some(Phase::Running(rank)) => {
                gate::clear(rank, &mut around.logger, &mut around.console)
            }
            Some(Phase::Replaying(_) | Phase::Down(_)) | None => Ok(()),
        }
    }

    /// Takes an image of itself, where it runs and nothing waits.
    pub fn image(&mut self) -> Result<(), NodeFault> {
        match &mut self.occupant {
            Some(Phase::Running(rank)) => rank.image(),
            Some(Phase::Replaying(_) | Phase::Down(_)) | None => Ok(()),
        }
    }

    /// Puts what is due to each rank on its way.
    pub fn put_out(&mut self, around: &mut Around<'p>) -> Result<(), NodeFault> {
        for dest in 0..RANKS {
            self.put_out_to(dest, around)?;
        }
        Ok(())
    }

    fn put_out_to(&mut self, dest: u8, around: &mut Around<'p>) -> Result<(), NodeFault>
        requires { dest < 2 }
    {
        for _ in 0..FRAMES {
            let Some(frame) = self.outgoing(dest)? else {
                break;
            };
            let from = self.number;
            around.put(dest, Parcel { from, frame })?;
            self.passed(dest);
        }
        Ok(())
    }

    fn outgoing(&self, dest: u8) -> Result<Option<Frame>, NodeFault>
        requires { dest < 2 }
        ensures { IfOk result (λ frame. frame ≡ outgoing_at self.now.occupant dest) }
    {
        match &self.occupant {
            Some(rank) => rank.outgoing(dest),
            None => Ok(None),
        }
    }

    fn passed(&mut self, dest: u8)
        requires there { dest < 2 }
        requires due { IsSome (outgoing_at self.old.occupant dest) }
    {
        if let Some(rank) = &mut self.occupant {
            rank.passed(dest);
        }
    }

    // The rank is this one now. What it was ends.
    fn put(&mut self, rank: Phase<'p, MemoryShelf, ()>)
        requires { IsRank self.old.number (Some rank) }
        ensures occupant { self.new.occupant ≡ Some rank.entry }
        ensures number { self.new.number ≡ self.old.number }
    {
        end(self.occupant.replace(rank));
    }
}

// The rank ends, if there is one.
fn end(occupant: Option<Phase<'_, MemoryShelf, ()>>) {
    if let Some(rank) = occupant {
        rank.retire().parts();
    }
}
