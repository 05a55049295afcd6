//! Choices of ranks in a run without crashes.
ghost use Rattle.std.specs.Prelude.{◌≡◌, ◌<◌, length, IfOk};

use crate::again::program_of;
use crate::out::Out;
use crash_free::{Choice, NotAllowed, Sim};
use limits::Heap;
use rank_language::Program;
use rank_machine::Want;
use std::alloc::AllocError;

const TEXT: &[u8] = b"var x
if rank == 0
  send 1, 7, 41
  send 1, 8, 42
else
  recv any, 8, x
  print x
  iprobe any, any, x
  iprobe any, any, x
  recv any, any, x
end
";

/// A rank's choices: the ones that are made, and one of each refusal.
static CHOICES: [(u8, Choice); 18] = [
    (0, Choice::Next),
    (0, Choice::Next),
    (0, Choice::Next),
    (0, Choice::Next),
    (0, Choice::Next),
    (0, Choice::Next),
    (1, Choice::Next),
    (1, Choice::Next),
    (1, Choice::Next),
    (
        1,
        Choice::Take {
            source: 0,
            index: 1,
        },
    ),
    (
        1,
        Choice::Take {
            source: 0,
            index: 2,
        },
    ),
    (1, Choice::Next),
    (1, Choice::Miss),
    (
        1,
        Choice::Take {
            source: 0,
            index: 1,
        },
    ),
    (
        1,
        Choice::Take {
            source: 0,
            index: 1,
        },
    ),
    (1, Choice::Next),
    (1, Choice::Next),
    (1, Choice::Miss),
];

/// What both ranks want.
type Seen = (Want, Want);

fn look(sim: &Sim<'_>) -> Seen
    requires { length sim.now.machines ≡ 2 }
{
    (sim.wants(0), sim.wants(1))
}

fn sim_of<'p>(alloc: Heap, program: &'p Program) -> Result<Sim<'p>, AllocError>
    ensures { IfOk result (λ sim. length sim.machines ≡ 2) }
{
    match Sim::new(alloc, program, 2) {
        Ok(sim) => Ok(sim),
        Err(_) => Sim::new(alloc, program, 2),
    }
}

/// A choice, once more where it was refused its memory.
fn act(out: &mut Out, sim: &mut Sim<'_>, rank: u8, choice: Choice) -> Result<(), NotAllowed>
    requires rank { rank < 2 }
    requires ranks { length sim.old.machines ≡ 2 }
    ensures { length sim.new.machines ≡ 2 }
{
    let before = look(sim);
    match sim.act(rank, choice) {
        Err(NotAllowed::Memory) => {
            out.compare(before == look(sim));
            sim.act(rank, choice)
        }
        answer => answer,
    }
}

/// Makes a choice, and shows what both ranks want then.
fn show(out: &mut Out, sim: &mut Sim<'_>, rank: u8, choice: Choice)
    requires rank { rank < 2 }
    requires ranks { length sim.old.machines ≡ 2 }
    ensures { length sim.new.machines ≡ 2 }
{
    let answer = act(out, sim, rank, choice);
    if let Err(NotAllowed::Memory) = answer {
        out.lack();
    }
    out.form("# ", &[u64::from(rank)]);
    out.debug(&choice);
    out.text(": ");
    out.debug(&answer);
    out.text("\n  ");
    let (first, second) = look(sim);
    out.debug(&first);
    out.text(", ");
    out.debug(&second);
    out.text("\n");
}

fn act_all(out: &mut Out, sim: &mut Sim<'_>)
    requires { length sim.old.machines ≡ 2 }
{
    for one in &CHOICES {
        let (rank, choice) = *one;
        if rank < 2 {
            show(out, sim, rank, choice);
        }
    }
}

/// Makes each choice.
pub fn play(out: &mut Out) {
    out.text("== choices in a run without crashes, and what both ranks want then\n");
    let Some(program) = program_of(out.alloc, TEXT) else {
        out.lack();
        return;
    };
    match sim_of(out.alloc, &program) {
        Ok(mut sim) => act_all(out, &mut sim),
        Err(_) => out.lack(),
    }
}
