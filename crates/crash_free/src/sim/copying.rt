//! Copies of machines.
ghost use Rattle.std.specs.Prelude.{◌≡◌, ◌≢◌, ◌≤◌, true, false, Some, IfOk, length, slice_get};
ghost use Rattle.std.specs.Option.{unwrap_or};
ghost use Rattle.crash_free.specs.Points.{AreUnmoved, replaced};

use limits::Heap;
use rank_machine::Machine;
use std::alloc::AllocError;

/// The same machines, in memory of their own.
pub fn copied<'p>(
    alloc: Heap,
    machines: &[Machine<'p>],
) -> Result<Vec<Machine<'p>, Heap>, AllocError>
    ensures { IfOk result (λ copies. copies.items ≡ machines.now) }
{
    let mut copies = Vec::with_capacity(alloc, machines.len())?;
    for machine in machines {
        copies.push(machine.copy(alloc)?)?;
    }
    Ok(copies)
}

/// Copies of the others, but of those that `unmoved` marks: they are as the machine of the same rank
/// is. Most acts of a search move few ranks.
#[tactic(auto, using(crate::proofs::Replacing::none_replaced, crate::proofs::Replacing::copied_one_more, crate::proofs::Replacing::all_copied))]
pub fn copy_moved<'p>(
    alloc: Heap,
    machines: &[Machine<'p>],
    others: &[Machine<'p>],
    unmoved: &[bool],
) -> Result<Vec<Option<Machine<'p>>, Heap>, AllocError>
    requires ranks { length machines.now ≡ length others.now }
    requires unmoved { AreUnmoved machines.now others.now unmoved.now }
    ensures replaced { IfOk result (λ copies. replaced machines.now copies.items ≡ others.now) }
    ensures count { IfOk result (λ copies. length copies.items ≤ length machines.now) }
{
    let mut copies = Vec::with_capacity(alloc, others.len())?;
    let mut rank = 0;
    while rank < others.len() {
        let stays = is_marked(unmoved, rank);
        copies.push(copy_unless(alloc, stays, &machines[rank], &others[rank])?)?;
        rank += 1;
    }
    Ok(copies)
}

// Whether there is a mark at the place.
fn is_marked(marks: &[bool], place: usize) -> bool
    ensures yes { result ≡ true → slice_get marks.now place ≡ Some true }
    ensures no { result ≡ false → slice_get marks.now place ≢ Some true }
{
    match marks.get(place) {
        Some(mark) => *mark,
        None => false,
    }
}

// A copy of the other one, unless the machine stays, which is the same then.
fn copy_unless<'p>(
    alloc: Heap,
    stays: bool,
    machine: &Machine<'p>,
    other: &Machine<'p>,
) -> Result<Option<Machine<'p>>, AllocError>
    requires { stays ≡ true → machine.now ≡ other.now }
    ensures { IfOk result (λ copy. unwrap_or copy machine.now ≡ other.now) }
{
    let _ = machine;
    if stays {
        return Ok(None);
    }
    Ok(Some(other.copy(alloc)?))
}

/// Puts each of the others that there is in the place of the machine of the same rank.
#[tactic(auto, using(crate::proofs::Replacing::last_stays, crate::proofs::Replacing::last_replaced, crate::proofs::Replacing::none_replaced))]
pub fn replace<'p>(
    machines: &mut Vec<Machine<'p>, Heap>,
    mut others: Vec<Option<Machine<'p>>, Heap>,
)
    requires { length others.items ≤ length machines.old.items }
    ensures { machines.new.items ≡ replaced machines.old.items others.entry.items }
{
    while let Some(other) = others.pop() {
        if let Some(machine) = other {
            machines[others.len()] = machine;
        }
    }
}
