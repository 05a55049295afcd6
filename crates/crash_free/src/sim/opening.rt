//! The machines of all ranks at the beginning.
ghost use Rattle.std.specs.Prelude.{◌≡◌, IfOk, length};
ghost use Rattle.crash_free.specs.Sim.{AreBegun};

use limits::Heap;
use rank_language::Program;
use rank_machine::Machine;
use std::alloc::AllocError;

pub fn machines<'p>(
    alloc: Heap,
    program: &'p Program,
    ranks: u8,
) -> Result<Vec<Machine<'p>, Heap>, AllocError>
    ensures ranks { IfOk result (λ machines. length machines.items ≡ ranks) }
    ensures begins { IfOk result (λ machines. AreBegun program.entry.now ranks machines.items) }
{
    let mut machines = Vec::new(alloc);
    for rank in 0..ranks {
        machines.push(Machine::new(alloc, program, rank, ranks)?)?;
    }
    Ok(machines)
}
