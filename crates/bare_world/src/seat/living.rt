//! How a rank goes down and comes up again.
ghost use Rattle.std.specs.Prelude.{◌≡◌, ◌≤◌, ℕ, false, None, length, IfOk, IfErr, OnOk, OnErr};
ghost use Rattle.limits.specs.Limits.{most_events};
ghost use Rattle.rank_node.specs.Image.{begins_at, image_on};
ghost use Rattle.rank_node.specs.Replay.{cuts, left_of};
ghost use Rattle.bare_world.specs.Seat.{bytes_of, live_of, shelf_of, HasLeft, IsOwn, IsStanding};
ghost use Rattle.bare_world.specs.Seats.{with_live, IsRestarted};

use crate::occupant::{put, take};
use crate::seat::Seat;
use checkpoint::MemoryShelf;
use event_logger::Event;
use limits::Heap;
use rank_language::Program;
use rank_node::{Down, NodeFault, Phase};
use std::alloc::AllocError;

impl<'p> Seat<'p> {
    /// The rank crashes, where it is live: its image stays. This takes no
    /// memory.
    pub fn crash(&mut self)
        ensures { self.new ≡ with_live self.old None }
    {
        let crashed = take(&mut self.occupant).crash();
        put(&mut self.occupant, Phase::Down(crashed));
    }

    /// The rank, which is down, starts again at its image, or at the beginning
    /// of the program where it has none, which cuts no event of its row, and
    /// this is how many events of that are left to replay. An `Err` is want of
    /// memory.
    pub fn restart(&mut self, alloc: Heap, row: Vec<Event, Heap>) -> Result<u32, AllocError>
        requires down { self.old.live ≡ None }
        requires row { length row.items ≤ most_events }
        requires uncut { cuts (begins_at self.old.program self.old.rank self.old.size self.old.image).clock row.items ≡ false }
        ensures count { IfOk result (λ count. count ≡ length (left_of (begins_at self.old.program self.old.rank self.old.size self.old.image) row.items)) }
        ensures ok { OnOk result (IsRestarted self.old.program self.old.size self.old.rank self.old.image row.items self.new.live) }
        ensures others { self.new ≡ with_live self.old self.new.live }
        ensures err { OnErr result (self.new ≡ self.old) }
    {
        // what is down already stays so
        let down = take(&mut self.occupant).crash();
        match restarted(down, alloc, self.program, row) {
            Ok((rank, left)) => {
                put(&mut self.occupant, rank);
                Ok(left)
            }
            Err((down, fault)) => {
                put(&mut self.occupant, Phase::Down(down));
                match fault {
                    NodeFault::Memory => Err(AllocError),
                    NodeFault::NotSettled
                    | NodeFault::Shelf
                    | NodeFault::Image
                    | NodeFault::Replay
                    | NodeFault::ClockSpent
                    | NodeFault::Log => unreachable!(),
                }
            }
        }
    }
}

// A rank that is down starts again at its image, or at the beginning of the program, and this is
// how many events of its row are left to replay. Whichever rank of the program it is, its image cuts
// no event of the row.
#[tactic(auto, using(crate::proofs::Calls::SettlesAtTheEnd::settled_left))]
fn restarted<'p>(
    down: Down<MemoryShelf, ()>,
    alloc: Heap,
    program: &'p Program,
    row: Vec<Event, Heap>,
) -> Result<(Phase<'p, MemoryShelf, ()>, u32), (Down<MemoryShelf, ()>, NodeFault)>
    requires row { length row.items ≤ most_events }
    requires uncut { (r n : ℕ) → IsOwn program.now r n down →
        cuts (begins_at program.now r n (image_on program.now r n (shelf_of down))).clock row.items ≡ false }
    ensures count { IfOk result (λ up. (r n : ℕ) → IsOwn program.now r n down →
        up.1 ≡ length (left_of (begins_at program.now r n (image_on program.now r n (shelf_of down))) row.items)) }
    ensures ok { IfOk result (λ up. (r n : ℕ) → IsOwn program.now r n down →
        IsRestarted program.now n r (image_on program.now r n (shelf_of down)) row.items (live_of up.0)) }
    ensures bytes { IfOk result (λ up. bytes_of up.0 ≡ shelf_of down) }
    ensures standing { IfOk result (λ up. (r n : ℕ) → IsOwn program.now r n down → IsStanding program.now r n up.0) }
    ensures left { IfOk result (λ up. HasLeft up.0) }

    ensures err_bytes { IfErr result (λ refused. shelf_of refused.0 ≡ shelf_of down) }
    ensures err_own { IfErr result (λ refused. (r n : ℕ) → IsOwn program.now r n down → IsOwn program.now r n refused.0) }
    ensures refused { IfErr result (λ refused. (r n : ℕ) → IsOwn program.now r n down → refused.1 ≡ NodeFault.Memory) }
{
    let replaying = down.restart(alloc, program, row)?;
    let left = replaying.left();
    Ok((Phase::Replaying(replaying).settled(), left))
}
