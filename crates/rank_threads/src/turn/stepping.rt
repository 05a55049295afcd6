//! Parts 1 and 3 of a turn: a stride, and a step of the rank.
ghost use Rattle.std.specs.Prelude.{◌≡◌, ◌≢◌, ◌+◌, true, false, Ok, Err, option_map, IfOk, IfSome, OnErr};
ghost use Rattle.rank_node.specs.Phases.{clock_in};
ghost use Rattle.rank_threads.specs.Lives.{SameLife, KeepsCosts};
ghost use Rattle.rank_threads.specs.Phases.{want_in, IsWantedIn};
ghost use Rattle.rank_threads.specs.NodeSteps.{IsNodeStep};
ghost use Rattle.rank_threads.specs.Turns.{MakesStride};
ghost use Rattle.rank_threads.specs.Steps.{acts_of, counted, is_limit, is_own, may_step, step_of, told, Counts};

use crate::hold::Hold;
use crate::life::Life;
use crate::shared::Shared;
use crate::tally::Tally;
use rank_machine::{Want, Wanted};
use rank_node::{NodeFault, Turn};
use std::sync::Wait;

/// How many steps of its own a rank makes in one turn at most.
const STRIDE: u32 = 1024;

/// What became of a rank's step.
#[derive(Clone, Copy)]
pub enum Stepped {
    /// It made steps of its own, and wants more of them.
    Moved,
    /// It made an act.
    Acted,
    /// It waits for a message.
    Blocked,
    /// It waits at its gate.
    Held,
    /// It has ended, or steps no more.
    Ended,
}

/// Makes a stride of steps of the rank's own, where it may step and wants one. A
/// rank that has a mark makes none: it waits, has ended, or steps no more.
#[tactic(auto, using(crate::proofs::TurnLemmas::stride_laws))]
pub fn stride<H>(shared: &Shared<'_, H>, life: &mut Life<'_, '_>)
    ensures strode { MakesStride shared.now.limits.steps life.old life.new }
    ensures kept { KeepsCosts life.old life.new }
{
    if !may_step(&life.kit.tally) {
        return;
    }
    let left = shared.limits.steps.saturating_sub(life.kit.tally.steps);
    let made = life.node.stride(left.min(STRIDE).max(1));
    if made > 0 {
        life.kit.tally.count_steps(made, shared.limits.steps, false);
    }
}

// Whether no limit stopped the rank, and it isn't blocked.
fn may_step(tally: &Tally) -> bool
    ensures { result ≡ may_step tally.now }
{
    !(tally.is_spent || tally.is_blocked)
}

/// One step, where the rank may step. Where its stride was as long as a turn's may
/// be, it still wants a step of its own, and makes none.
///
/// A rank that is refused by a limit is spent, and steps no more.
#[tactic(auto, using(crate::proofs::TurnLemmas::step_laws))]
pub fn step<W: Wait, H: Hold>(
    rt: &W,
    shared: &Shared<'_, H>,
    life: &mut Life<'_, '_>,
) -> Result<Stepped, NodeFault>
    ensures answer { result ≢ Err NodeFault.Memory → result ≡ step_of life.old.kit.tally life.old.node.phase }
    ensures counts { IfOk result (λ stepped. Counts shared.now.limits.steps life.old.node.phase life.new.node.phase stepped
        life.old.kit.tally life.new.kit.tally) }
    ensures clock { IfOk result (λ stepped. clock_in life.new.node.phase ≡ clock_in life.old.node.phase + acts_of stepped) }
    ensures waits { life.old.kit.tally.is_blocked ≡ true → life.old.kit.tally.is_spent ≡ false → (result ≡ Ok Stepped.Blocked) × (life.new ≡ life.old) }
    ensures kept { KeepsCosts life.old life.new }
{
    if life.kit.tally.is_spent {
        return Ok(Stepped::Ended);
    }
    if life.kit.tally.is_blocked {
        tell(shared, life);
        return Ok(Stepped::Blocked);
    }
    let wanted = life.node.wanted();
    if is_own(wanted) {
        return Ok(Stepped::Moved);
    }
    let answer = act(rt, shared, life, wanted);
    count(shared, life, answer)
}

// Whether that is a step of the machine's own.
fn is_own(wanted: Option<Wanted>) -> bool
    ensures { result ≡ is_own (option_map (λ w. w.want) wanted) }
{
    let Some(wanted) = wanted else {
        return false;
    };
    match wanted.want {
        Want::Internal => true,
        Want::Send { .. }
        | Want::Receive(_)
        | Want::Probe(_)
        | Want::TryProbe(_)
        | Want::Print(_)
        | Want::Halted
        | Want::Faulted(_) => false,
    }
}

// An act is counted, and a rank that is refused by a limit has ended.
#[tactic(auto, using(crate::proofs::TurnLemmas::count_laws))]
fn count<H>(
    shared: &Shared<'_, H>,
    life: &mut Life<'_, '_>,
    answer: Result<Turn, NodeFault>,
) -> Result<Stepped, NodeFault>
    ensures told { result ≡ told answer }
    ensures counted { life.new.kit.tally ≡ counted shared.now.limits.steps answer life.old.kit.tally }
    ensures rest { life.new ≡ record life.old { kit = record life.old.kit { tally = life.new.kit.tally } } }
    ensures same { SameLife life.old life.new }
{
    match answer {
        Ok(Turn::Moved) => {
            life.kit.tally.count_steps(1, shared.limits.steps, true);
            Ok(Stepped::Acted)
        }
        Ok(Turn::Blocked) => {
            life.kit.tally.block();
            Ok(Stepped::Blocked)
        }
        Ok(Turn::Held) => Ok(Stepped::Held),
        Ok(Turn::Ended) => Ok(Stepped::Ended),
        Err(fault) => {
            if !is_limit(fault) {
                return Err(fault);
            }
            life.kit.tally.spend();
            Ok(Stepped::Ended)
        }
    }
}

// Whether a limit refuses the step.
fn is_limit(fault: NodeFault) -> bool
    ensures { result ≡ is_limit fault }
{
    match fault {
        NodeFault::ClockSpent | NodeFault::Log => true,
        NodeFault::Memory
        | NodeFault::NotSettled
        | NodeFault::Shelf
        | NodeFault::Image
        | NodeFault::Replay => false,
    }
}

// Who holds acts is told of the one that the rank wants.
fn tell<H: Hold>(shared: &Shared<'_, H>, life: &Life<'_, '_>) {
    // No clock is near the end of its type.
    let clock = life.node.clock().saturating_add(1);
    shared.hold.before(life.kit.rank, clock);
}

// Who holds acts is told of one before it is made, also where it turns out to
// be blocked. The console's lock is taken for a print alone.
fn act<W: Wait, H: Hold>(
    rt: &W,
    shared: &Shared<'_, H>,
    life: &mut Life<'_, '_>,
    wanted: Option<Wanted>,
) -> Result<Turn, NodeFault>
    requires want { option_map (λ w. w.want) wanted ≡ want_in life.old.node.phase }
    requires found { IfSome wanted (IsWantedIn life.old.node.phase) }
    ensures step { IsNodeStep life.old.node life.new.node result }
    ensures rest { life.new ≡ record life.old { node = life.new.node } }
    ensures same { SameLife life.old life.new }
{
    let Some(wanted) = wanted else {
        return Ok(Turn::Ended);
    };
    if wanted.want.is_act() {
        tell(shared, life);
    }
    match wanted.want {
        Want::Print(_) => {
            let mut console = shared.console.lock(rt);
            life.node.print(&mut *console, wanted)
        }
        Want::Internal
        | Want::Send { .. }
        | Want::Receive(_)
        | Want::Probe(_)
        | Want::TryProbe(_)
        | Want::Halted
        | Want::Faulted(_) => life.node.step(wanted),
    }
}
