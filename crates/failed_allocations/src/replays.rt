//! A rank that crashed starts again, and replays.
ghost use Rattle.std.specs.Prelude.{◌≡◌, ◌≤◌, length, IfOk, IfErr, IfSome};
ghost use Rattle.limits.specs.Limits.{most_events};

use crate::again::packet_near;
use crate::out::Out;
use crate::ranks::Scene;
use checkpoint::MemoryShelf;
use event_logger::{Event, LoggerState};
use limits::{Heap, MOST_EVENTS};
use rank_language::Program;
use rank_machine::Want;
use rank_node::{Arrived, Down, Frame, NodeFault, Replaying, Stable, Turn};

/// A rank that is down, with a shelf in memory and no desk.
pub type Lost = Down<MemoryShelf, ()>;

/// Such a rank that replays.
type Again<'p> = Replaying<'p, MemoryShelf, ()>;

/// The row of rank 1, if there is memory for it.
fn row_of(alloc: Heap, logger: &mut LoggerState) -> Option<Vec<Event, Heap>>
    ensures { IfSome result (λ row. length row.items ≤ most_events) }
{
    if logger.ranks() != 2 {
        return None;
    }
    let row = match logger.fetch(alloc, 1, 0) {
        Ok(row) => Ok(row),
        Err(_) => logger.fetch(alloc, 1, 0),
    };
    match row {
        Ok(row) if row.len() <= MOST_EVENTS => Some(row),
        _ => None,
    }
}

/// A rank that is down starts again.
fn restart<'p>(
    alloc: Heap,
    program: &'p Program,
    logger: &mut LoggerState,
    down: Lost,
) -> Result<Again<'p>, Lost>
    requires { down.size ≡ 2 }
    ensures up { IfOk result (λ rank. rank.node.stable.size ≡ 2) }
    ensures back { IfErr result (λ back. back.size ≡ 2) }
{
    let Some(row) = row_of(alloc, logger) else {
        return Err(down);
    };
    match down.restart(alloc, program, row) {
        Ok(rank) => Ok(rank),
        Err((back, _)) => Err(back),
    }
}

/// What can be seen of a rank that replays, and around it: what it wants, its
/// clock, how many events are left and how many lines were shown.
type Seen = (Want, [u64; 3]);

fn look(rank: &Again<'_>, scene: &Scene) -> Seen {
    let lines = scene.console.lines().len() as u64;
    (
        rank.wants(),
        [u64::from(rank.clock()), u64::from(rank.left()), lines],
    )
}

fn show(out: &mut Out, rank: &Again<'_>, scene: &Scene) {
    let (want, [clock, left, lines]) = look(rank, scene);
    out.form(", Seen { clock: #, left: #, want: ", &[clock, left]);
    out.debug(&want);
    out.form(", lines: # }", &[lines]);
}

/// A frame that arrives of rank 0, and once more where it was handed back.
fn arrive(out: &mut Out, rank: &mut Again<'_>, scene: &Scene, number: u32) -> Option<Arrived>
    requires { rank.old.node.stable.size ≡ 2 }
    ensures { rank.new.node.stable ≡ rank.old.node.stable }
{
    let Ok(one) = packet_near(out.alloc, number) else {
        return None;
    };
    let before = look(rank, scene);
    match rank.arrive(0, Frame::Data(one)) {
        Ok(came) => Some(came),
        Err((back, _)) => {
            out.compare(before == look(rank, scene));
            match rank.arrive(0, back) {
                Ok(came) => Some(came),
                Err(_) => None,
            }
        }
    }
}

/// A step, or none where nothing is left to replay.
fn step_once(rank: &mut Again<'_>, scene: &mut Scene) -> Result<Turn, NodeFault>
    ensures { rank.new.node.stable ≡ rank.old.node.stable }
{
    if rank.left() == 0 {
        return Ok(Turn::Ended);
    }
    rank.step(&mut scene.console)
}

/// A step, once more where it was refused its memory.
fn step(out: &mut Out, rank: &mut Again<'_>, scene: &mut Scene) -> Result<Turn, NodeFault>
    ensures { rank.new.node.stable ≡ rank.old.node.stable }
{
    let before = look(rank, scene);
    match step_once(rank, scene) {
        Err(NodeFault::Memory) => {
            out.compare(before == look(rank, scene));
            step_once(rank, scene)
        }
        turn => turn,
    }
}

/// A packet arrives, and a step is made behind it.
fn arrive_and_step(out: &mut Out, rank: &mut Again<'_>, scene: &mut Scene, number: u32)
    requires { rank.old.node.stable.size ≡ 2 }
    ensures { rank.new.node.stable ≡ rank.old.node.stable }
{
    let Some(came) = arrive(out, rank, scene, number) else {
        return out.lack();
    };
    out.form("packet #: ", &[u64::from(number)]);
    out.debug(&came);
    show(out, rank, scene);
    let turn = step(out, rank, scene);
    if let Err(NodeFault::Memory) = turn {
        out.lack();
    }
    out.text("\na step: ");
    out.debug(&turn);
    show(out, rank, scene);
    out.text("\n");
}

/// Packets arrive, too early, again and as the next.
fn replay(out: &mut Out, rank: &mut Again<'_>, scene: &mut Scene)
    requires { rank.old.node.stable.size ≡ 2 }
    ensures { rank.new.node.stable ≡ rank.old.node.stable }
{
    out.text("== a rank that replays\n");
    for number in [4, 1, 3] {
        arrive_and_step(out, rank, scene, number);
    }
}

/// The first ask goes out.
fn pass(rank: &mut Again<'_>) -> bool
    requires { rank.old.node.stable.size ≡ 2 }
    ensures { rank.new.node.stable ≡ rank.old.node.stable }
{
    let asks = matches!(rank.outgoing(0), Ok(Some(_)));
    if asks {
        rank.passed(0);
    }
    asks
}

/// Ends a replay: it goes on as a rank that runs, and crashes. Answers whether it
/// went on.
fn crash(rank: Again<'_>) -> (bool, Lost) {
    match rank.settle() {
        Ok(running) => (true, running.crash()),
        Err(again) => (false, again.crash()),
    }
}

/// The shelf of a rank that retires, once it was put together again.
fn shelf_of(down: Lost) -> MemoryShelf {
    let ((), shelf) = down.retire().parts();
    let ((), shelf) = Stable::new((), shelf, 1, 2).parts();
    shelf
}

/// Ends a replay. Answers the shelf.
fn end(out: &mut Out, rank: Again<'_>, scene: &Scene) -> MemoryShelf
    requires { rank.node.stable.size ≡ 2 }
{
    let mut rank = rank;
    out.follow("a replay that ends");
    let asks = pass(&mut rank);
    out.text("an ask goes out: ");
    out.truth(asks);
    show(out, &rank, scene);
    let (settled, down) = crash(rank);
    out.text(", it runs then: ");
    out.truth(settled);
    out.text("\n");
    shelf_of(down)
}

/// The rank starts again, once more with what was handed back, and replays.
/// Answers its shelf, if it started.
pub fn play(out: &mut Out, program: &Program, scene: &mut Scene, down: Lost) -> Option<MemoryShelf>
    requires { down.size ≡ 2 }
{
    let up = match restart(out.alloc, program, &mut scene.logger, down) {
        Ok(rank) => Ok(rank),
        Err(back) => restart(out.alloc, program, &mut scene.logger, back),
    };
    match up {
        Ok(mut rank) => {
            replay(out, &mut rank, scene);
            Some(end(out, rank, scene))
        }
        Err(down) => {
            let _ = down.retire().parts();
            None
        }
    }
}
