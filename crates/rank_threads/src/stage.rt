//! What a run needs before it has an event logger.
ghost use Rattle.std.specs.Prelude.{◌≡◌, [], IfOk, vec_len};
ghost use Rattle.rank_threads.specs.Plans.{plans_below};
ghost use Rattle.rank_threads.specs.Seating.{IsRoom};
ghost use Rattle.rank_threads.specs.Stage.{IsStage};

use crate::leaving::Mark;
use crate::life::{Parcel, Remains};
use crate::plan::Plan;
use crossbeam_utils::CachePadded;
use limits::Heap;
use ports::{Console, Ends, open_all};
use rank_text::script::Script;
use std::alloc::AllocError;
use std::sync::Wait;
use std::sync::atomic::AtomicBool;

/// All that a run needs before it has an event logger: what ranks share, their
/// lanes, and room for their stations and for what these leave.
pub struct Stage<'l, W: Wait + Drop> {
    pub console: Console,
    pub marks: Vec<CachePadded<Mark>, Heap>,
    pub bells: Vec<CachePadded<AtomicBool>, Heap>,
    /// What the script asks of each rank.
    pub plans: Vec<Plan, Heap>,
    pub ends: Ends,
    pub stations: Vec<Parcel<'l, W>, Heap>,
    pub room: Remains,
}

impl<'l, W: Wait + Drop> Stage<'l, W> {
    /// Makes all of it ready for so many ranks. An `Err` is refused memory.
    pub fn new(alloc: Heap, ranks: u8, script: &Script) -> Result<Stage<'l, W>, AllocError>
        ensures { IfOk result (λ stage. IsStage ranks script.now stage) }
    {
        let console = Console::new(alloc, ranks)?;
        let marks = marks(alloc, ranks)?;
        let bells = bells(alloc, ranks)?;
        let plans = plans(alloc, script, ranks)?;
        let ends = open_all(alloc, ranks)?;
        let stations = Vec::with_capacity(alloc, usize::from(ranks))?;
        let room = room(alloc, ranks)?;
        Ok(Stage {
            console,
            marks,
            bells,
            plans,
            ends,
            stations,
            room,
        })
    }

    /// There is no logger to run at, so nothing stands there yet.
    pub fn give_up(self)
        requires { self.room.desks.items ≡ [] }
    {
        let Stage {
            console: _,
            marks: _,
            bells: _,
            plans: _,
            ends: _,
            stations: _,
            room,
        } = self;
        let Remains {
            desks,
            ends: _,
            accounts: _,
        } = room;
        desks.destroy_empty();
    }
}

// Where the desks, lanes and ends of so many ranks have room.
fn room(alloc: Heap, size: u8) -> Result<Remains, AllocError>
    ensures { IfOk result (λ room. IsRoom size room) }
{
    let ranks = usize::from(size);
    let accounts = Vec::with_capacity(alloc, ranks)?;
    let ends = Ends {
        to: Vec::with_capacity(alloc, ranks)?,
        from: Vec::with_capacity(alloc, ranks)?,
    };
    let desks = Vec::with_capacity(alloc, ranks)?;
    Ok(Remains {
        desks,
        ends,
        accounts,
    })
}

fn marks(alloc: Heap, size: u8) -> Result<Vec<CachePadded<Mark>, Heap>, AllocError>
    ensures { IfOk result (λ marks. vec_len marks ≡ size) }
{
    let mut marks = Vec::new(alloc);
    for _ in 0..size {
        marks.push(CachePadded::new(Mark::new()))?;
    }
    Ok(marks)
}

// Each bell is rung at first.
fn bells(alloc: Heap, size: u8) -> Result<Vec<CachePadded<AtomicBool>, Heap>, AllocError>
    ensures { IfOk result (λ bells. vec_len bells ≡ size) }
{
    let mut bells = Vec::new(alloc);
    for _ in 0..size {
        bells.push(CachePadded::new(AtomicBool::new(true)))?;
    }
    Ok(bells)
}

#[tactic(auto, using(crate::proofs::PlanLaws::plans_next))]
fn plans(alloc: Heap, script: &Script, size: u8) -> Result<Vec<Plan, Heap>, AllocError>
    ensures lines { IfOk result (λ plans. plans.items ≡ plans_below size script.now) }
    ensures len { IfOk result (λ plans. vec_len plans ≡ size) }
{
    let mut plans = Vec::new(alloc);
    for rank in 0..size {
        plans.push(Plan::new(script.lines_of(alloc, rank)?))?;
    }
    Ok(plans)
}
