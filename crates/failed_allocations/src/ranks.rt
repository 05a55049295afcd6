//! Calls on a rank that runs.
ghost use Rattle.std.specs.Prelude.{◌≡◌, IfOk};

use crate::again::{packet_near, program_of};
use crate::out::Out;
use crate::{images, replays};
use checkpoint::MemoryShelf;
use event_logger::LoggerState;
use limits::Heap;
use ports::ConsoleState;
use rank_language::Program;
use rank_machine::Want;
use rank_node::{Arrived, Frame, NodeFault, Running, Stable, Turn};
use std::alloc::AllocError;

/// A rank with a shelf in memory and no desk.
pub type Rank<'p> = Running<'p, MemoryShelf, ()>;

/// What stands around a rank.
#[derive(Drop)]
pub struct Scene {
    pub logger: LoggerState,
    pub console: ConsoleState,
}

// The first send has more items than stand in a packet itself, so it takes memory for them.
const TEXT: &[u8] = b"var x
array a[5]
recv 0, 7, x
send 0, 0, a
print x
iprobe any, 9, x
send 0, 1, 5
print 6
recv 0, 7, x
print x
";

/// A call on a rank.
#[derive(Clone, Copy)]
enum Call {
    /// The packet of rank 0 with this number comes.
    Arrive(u32),
    Step,
    Store,
    Ack,
    Release,
    /// What goes to rank 0 next is gone.
    Pass,
    Image,
}

/// A call, as it is printed.
type Row = (&'static str, Call);

/// What any call but an arrival answers; a number or a truth with what is printed in front of it.
#[derive(Clone, Copy)]
enum Answer {
    Stepped(Turn),
    Number(&'static str, Option<u32>),
    Truth(&'static str, bool),
    Imaged,
}

/// A send and a line come to wait behind a reception, which is stored.
const WAITING: [Row; 10] = [
    ("Arrive(2): ", Call::Arrive(2)),
    ("Arrive(1): ", Call::Arrive(1)),
    ("Arrive(1): ", Call::Arrive(1)),
    ("Step: ", Call::Step),
    ("Step: ", Call::Step),
    ("Step: ", Call::Step),
    ("Step: ", Call::Step),
    ("Step: ", Call::Step),
    ("Image: ", Call::Image),
    ("Store: ", Call::Store),
];

/// The send passes, and its packet goes out.
const FRUGAL: [Row; 4] = [
    ("Ack: ", Call::Ack),
    ("Ack: ", Call::Ack),
    ("Release: ", Call::Release),
    ("Store: ", Call::Store),
];

/// The line passes too. A send and a line behind a miss pass at once. Then an
/// image is taken, with a packet in the inbox, and that is received.
const GOING_ON: [Row; 21] = [
    ("Release: ", Call::Release),
    ("Release: ", Call::Release),
    ("Pass: ", Call::Pass),
    ("Step: ", Call::Step),
    ("Store: ", Call::Store),
    ("Ack: ", Call::Ack),
    ("Step: ", Call::Step),
    ("Step: ", Call::Step),
    ("Pass: ", Call::Pass),
    ("Pass: ", Call::Pass),
    ("Step: ", Call::Step),
    ("Arrive(2): ", Call::Arrive(2)),
    ("Image: ", Call::Image),
    ("Pass: ", Call::Pass),
    ("Pass: ", Call::Pass),
    ("Step: ", Call::Step),
    ("Step: ", Call::Step),
    ("Store: ", Call::Store),
    ("Step: ", Call::Step),
    ("Release: ", Call::Release),
    ("Ack: ", Call::Ack),
];

/// What can be seen of a rank and around it: what it wants, its clock, how many
/// calls the logger has answered and how many lines were shown.
type Seen = (Want, [u64; 3]);

fn look(rank: &Rank<'_>, scene: &Scene) -> Seen {
    let calls = scene.logger.history().len() as u64;
    let lines = scene.console.lines().len() as u64;
    (rank.wants(), [u64::from(rank.clock()), calls, lines])
}

fn show(out: &mut Out, rank: &Rank<'_>, scene: &Scene) {
    let (want, [clock, calls, lines]) = look(rank, scene);
    out.form("  Seen { clock: #, want: ", &[clock]);
    out.debug(&want);
    out.form(", calls: #, lines: # }\n", &[calls, lines]);
}

/// A logger and a console of two ranks.
fn scene_of(alloc: Heap) -> Result<Scene, AllocError> {
    let logger = match LoggerState::new(alloc, 2) {
        Ok(logger) => logger,
        Err(_) => LoggerState::new(alloc, 2)?,
    };
    let console = match ConsoleState::new(alloc, 2) {
        Ok(console) => console,
        Err(_) => ConsoleState::new(alloc, 2)?,
    };
    Ok(Scene { logger, console })
}

/// Rank 1 of two at its beginning, once more with what was handed back.
fn start<'p>(alloc: Heap, program: &'p Program) -> Result<Rank<'p>, AllocError>
    ensures rank { IfOk result (λ rank. rank.stable.rank ≡ 1) }
    ensures size { IfOk result (λ rank. rank.stable.size ≡ 2) }
{
    let stable = Stable::new((), MemoryShelf::new(alloc), 1, 2);
    match Running::start(alloc, program, stable) {
        Ok(rank) => Ok(rank),
        Err((back, _)) => match Running::start(alloc, program, back) {
            Ok(rank) => Ok(rank),
            Err((stable, _)) => {
                let _ = stable.parts();
                Err(AllocError)
            }
        },
    }
}

/// A frame that arrives of rank 0, and once more where it was handed back.
fn arrive(out: &mut Out, rank: &mut Rank<'_>, scene: &Scene, number: u32) -> Option<Arrived>
    requires { rank.old.stable.size ≡ 2 }
    ensures { rank.new.stable ≡ rank.old.stable }
{
    let Ok(one) = packet_near(out.alloc, number) else {
        return None;
    };
    let before = look(rank, scene);
    match rank.arrive(0, Frame::Data(one)) {
        Ok(came) => Some(came),
        Err((back, _)) => {
            out.compare(before == look(rank, scene));
            match rank.arrive(0, back) {
                Ok(came) => Some(came),
                Err(_) => None,
            }
        }
    }
}

/// What goes to rank 0 next is gone; whether there was something.
fn pass(rank: &mut Rank<'_>) -> Result<bool, NodeFault>
    requires { rank.old.stable.size ≡ 2 }
    ensures { rank.new.stable ≡ rank.old.stable }
{
    let goes = rank.outgoing(0)?.is_some();
    if goes {
        rank.passed(0);
    }
    Ok(goes)
}

fn store(rank: &mut Rank<'_>, logger: &mut LoggerState) -> Result<Option<u32>, NodeFault>
    requires { rank.old.stable.rank ≡ 1 }
    ensures { rank.new.stable ≡ rank.old.stable }
{
    if logger.ranks() != 2 {
        return Err(NodeFault::Log);
    }
    rank.store_state(logger)
}

fn numbered(
    name: &'static str,
    number: Result<Option<u32>, NodeFault>,
) -> Result<Answer, NodeFault> {
    match number {
        Ok(number) => Ok(Answer::Number(name, number)),
        Err(fault) => Err(fault),
    }
}

/// Any call but an arrival.
fn make(rank: &mut Rank<'_>, scene: &mut Scene, call: Call) -> Result<Answer, NodeFault>
    requires number { rank.old.stable.rank ≡ 1 }
    requires size { rank.old.stable.size ≡ 2 }
    ensures number { rank.new.stable.rank ≡ 1 }
    ensures size { rank.new.stable.size ≡ 2 }
{
    match call {
        Call::Step => match rank.step(&mut scene.console) {
            Ok(turn) => Ok(Answer::Stepped(turn)),
            Err(fault) => Err(fault),
        },
        Call::Store => numbered("Stored(", store(rank, &mut scene.logger)),
        Call::Ack => Ok(Answer::Truth("Acked(", rank.ack())),
        Call::Release => numbered("Released(", rank.release(&mut scene.console)),
        Call::Pass => match pass(rank) {
            Ok(goes) => Ok(Answer::Truth("Passed(", goes)),
            Err(fault) => Err(fault),
        },
        Call::Image => match rank.image() {
            Ok(()) => Ok(Answer::Imaged),
            Err(fault) => Err(fault),
        },
        Call::Arrive(_) => Ok(Answer::Imaged),
    }
}

/// Any call but an arrival, once more where it was refused its memory.
fn make_again(
    out: &mut Out,
    rank: &mut Rank<'_>,
    scene: &mut Scene,
    call: Call,
) -> Result<Answer, NodeFault>
    requires number { rank.old.stable.rank ≡ 1 }
    requires size { rank.old.stable.size ≡ 2 }
    ensures number { rank.new.stable.rank ≡ 1 }
    ensures size { rank.new.stable.size ≡ 2 }
{
    let before = look(rank, scene);
    match make(rank, scene, call) {
        Err(NodeFault::Memory) => {
            out.compare(before == look(rank, scene));
            make(rank, scene, call)
        }
        answer => answer,
    }
}

fn show_answer(out: &mut Out, answer: Result<Answer, NodeFault>) {
    match answer {
        Ok(Answer::Stepped(turn)) => {
            out.text("Ok(Stepped(");
            out.debug(&turn);
            out.text("))\n");
        }
        Ok(Answer::Number(name, number)) => {
            out.text("Ok(");
            out.text(name);
            out.debug(&number);
            out.text("))\n");
        }
        Ok(Answer::Truth(name, is_so)) => {
            out.text("Ok(");
            out.text(name);
            out.truth(is_so);
            out.text("))\n");
        }
        Ok(Answer::Imaged) => out.text("Ok(Imaged)\n"),
        Err(NodeFault::Memory) => out.lack(),
        Err(fault) => {
            out.text("Err(");
            out.debug(&fault);
            out.text(")\n");
        }
    }
}

/// Makes a call, and shows its answer.
fn make_one(out: &mut Out, rank: &mut Rank<'_>, scene: &mut Scene, call: Call)
    requires number { rank.old.stable.rank ≡ 1 }
    requires size { rank.old.stable.size ≡ 2 }
    ensures number { rank.new.stable.rank ≡ 1 }
    ensures size { rank.new.stable.size ≡ 2 }
{
    let Call::Arrive(number) = call else {
        let answer = make_again(out, rank, scene, call);
        return show_answer(out, answer);
    };
    match arrive(out, rank, scene, number) {
        Some(came) => {
            out.text("Ok(Came(");
            out.debug(&came);
            out.text("))\n");
        }
        None => out.lack(),
    }
}

fn make_all(out: &mut Out, rank: &mut Rank<'_>, scene: &mut Scene, rows: &[Row])
    requires number { rank.old.stable.rank ≡ 1 }
    requires size { rank.old.stable.size ≡ 2 }
    ensures number { rank.new.stable.rank ≡ 1 }
    ensures size { rank.new.stable.size ≡ 2 }
{
    for row in rows {
        let (name, call) = *row;
        out.text(name);
        make_one(out, rank, scene, call);
        show(out, rank, scene);
    }
}

/// Plays a rank, until it crashes, and what comes then.
fn live(out: &mut Out, program: &Program, scene: &mut Scene) {
    let Ok(mut rank) = start(out.alloc, program) else {
        out.lack();
        return;
    };
    make_all(out, &mut rank, scene, &WAITING);
    out.follow("a rank that runs");
    make_all(out, &mut rank, scene, &FRUGAL);
    out.text("== a rank that runs, once more\n");
    make_all(out, &mut rank, scene, &GOING_ON);
    match replays::play(out, program, scene, rank.crash()) {
        Some(shelf) => images::play(out, program, shelf),
        None => out.lack(),
    }
}

/// Plays a rank, what comes when it has crashed, and its image.
pub fn play(out: &mut Out) {
    out.text("== a rank that runs\n");
    let (Some(program), Ok(mut scene)) = (program_of(out.alloc, TEXT), scene_of(out.alloc)) else {
        out.lack();
        return;
    };
    live(out, &program, &mut scene);
}
