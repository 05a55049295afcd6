//! All ranks of a run, from new desks of a logger to what is left of them: set
//! out, kept on threads of their own or by turns, and cleared away.
ghost use Rattle.std.specs.Prelude.{◌≡◌, ◌≤◌, [], vec_len, vec_capacity};
ghost use Rattle.limits.specs.Limits.{most_ranks};
ghost use Rattle.event_logger.specs.Desks.{AreDesks, desks_below};
ghost use Rattle.rank_threads.specs.Keeping.{WereKept};
ghost use Rattle.rank_threads.specs.Playing.{IsSetOut};
ghost use Rattle.rank_threads.specs.Report.{IsPlayed};
ghost use Rattle.rank_threads.specs.Seating.{IsRoom};
ghost use Rattle.rank_threads.specs.Stage.{IsStage};
ghost use Rattle.rank_threads.specs.Stations.{stations_of};

use crate::early_audit::{EarlyAudit, Feed};
use crate::hold::Hold;
use crate::leaving::Mark;
use crate::life::{
    Account, Parcel, Remains, Seat, Unseated, keep_all, keep_by_turns, seat_all, unseat_all,
};
use crate::running::RunLimits;
use crate::schedule::Schedule;
use crate::shared::Shared;
use crate::stage::Stage;
use crate::stop::OutOfTurns;
use audit::Ahead;
use crossbeam_utils::CachePadded;
use event_logger::{Desk, Logger};
use limits::Heap;
use ports::{Console, ConsoleState, close_all};
use rank_language::Program;
use rank_text::script::Script;
use std::snapshot::Snapshot;
use std::sync::atomic::AtomicBool;
use std::sync::{OnceLock, Wait};
use std::thread::Threads;

/// What is left of a run when all ranks have left, without the rows at its logger.
#[derive(Drop)]
pub struct Played {
    pub console: ConsoleState,
    /// What each rank came to, in the order of ranks.
    pub accounts: Vec<Account, Heap>,
}

/// What ranks share as long as they are kept, which is none of theirs.
pub struct Ground {
    console: Console,
    marks: Vec<CachePadded<Mark>, Heap>,
    bells: Vec<CachePadded<AtomicBool>, Heap>,
    stop: OnceLock<()>,
}

/// What stands ready for ranks to be kept.
pub struct SetOut<'l, W: Wait + Drop> {
    pub ground: Ground,
    /// A station for each rank.
    pub stations: Vec<Parcel<'l, W>, Heap>,
    /// Where what they leave has room.
    pub room: Remains,
}

impl Ground {
    fn shared<'a, H>(
        &'a self,
        alloc: Heap,
        program: &'a Program,
        hold: &'a H,
        limits: RunLimits,
        feeds: &'a [Feed],
    ) -> Shared<'a, H>
        ensures { result.program.now ≡ program.entry.now }
    {
        Shared {
            alloc,
            program,
            hold,
            limits,
            console: &self.console,
            marks: self.marks.as_slice(),
            bells: self.bells.as_slice(),
            feeds,
            stop: &self.stop,
        }
    }
}

/// Plays the program at the new desks of this logger, each rank on a thread of its
/// own, until all ranks have left, and goes on with their audit meanwhile. The desks come
/// back, each with the calls that its rank made, and the run that was made ahead. No want of
/// memory is told before every station is back.
pub fn play<'l, 'q, R: Threads + Wait + Sync + Copy + Send, H: Hold + Sync>(
    rt: R,
    alloc: Heap,
    program: &Program,
    size: u8,
    _script: &Script,
    limits: RunLimits,
    hold: &H,
    stage: Stage<'l, R>,
    logger: &'l Logger,
    desks: Vec<Desk, Heap>,
    early: EarlyAudit<'q>,
) -> (Played, Vec<Desk, Heap>, Ahead<'q>)
    requires few { size ≤ most_ranks }
    requires stage { IsStage size _script.now stage }
    requires ranks { logger.now.ranks ≡ size }
    requires desks { AreDesks logger.now.table desks.items }
    requires a_desk_each { vec_len desks ≡ size }
    requires new { desks.items ≡ desks_below logger.now.table size }
    ensures played { IsPlayed program.entry.now size _script.now logger.now result.1.items result.0 }
    ensures desks { AreDesks logger.now.table result.1.items }
    ensures a_desk_each { vec_len result.1 ≡ size }
    ensures ahead { result.2 ≡ early.entry.ahead }
{
    let SetOut {
        ground,
        stations,
        room,
    } = set_out(rt, alloc, size, _script, stage, logger, desks);
    let begun = Snapshot::of(&stations);
    let EarlyAudit { feeds, ahead } = early;
    let shared = ground.shared(alloc, program, hold, limits, feeds.as_slice());
    let (stations, ahead) = keep_all(rt, &shared, stations, ahead);
    drop(shared);
    let (played, desks) = clear_away(
        program, size, _script, logger, begun, ground, stations, room,
    );
    (played, desks, ahead)
}

/// Plays the program at the new desks of this logger on the caller's thread, turn
/// by turn as the schedule says, until all ranks have left or the turns are used up.
/// The desks come back, each with the calls that its rank made.
pub fn play_by_turns<'p, 'l, W: Wait + Drop + Copy, H: Hold>(
    rt: W,
    alloc: Heap,
    program: &'p Program,
    size: u8,
    _script: &Script,
    limits: RunLimits,
    schedule: Schedule,
    hold: &H,
    stage: Stage<'l, W>,
    seats: Vec<Seat<'p, 'l>, Heap>,
    logger: &'l Logger,
    desks: Vec<Desk, Heap>,
) -> (Played, Vec<Desk, Heap>, Option<OutOfTurns>)
    requires few { size ≤ most_ranks }
    requires stage { IsStage size _script.now stage }
    requires ranks { logger.now.ranks ≡ size }
    requires desks { AreDesks logger.now.table desks.items }
    requires a_desk_each { vec_len desks ≡ size }
    requires new { desks.items ≡ desks_below logger.now.table size }
    requires vacant { seats.items ≡ [] }
    requires seats { size ≤ vec_capacity seats }
    ensures played { IsPlayed program.entry.now size _script.now logger.now result.1.items result.0 }
    ensures desks { AreDesks logger.now.table result.1.items }
    ensures a_desk_each { vec_len result.1 ≡ size }
{
    let SetOut {
        ground,
        stations,
        room,
    } = set_out(rt, alloc, size, _script, stage, logger, desks);
    let begun = Snapshot::of(&stations);
    let shared = ground.shared(alloc, program, hold, limits, &[]);
    let (stations, spent) = keep_by_turns(rt, &shared, schedule, stations, seats);
    drop(shared);
    let (played, desks) = clear_away(
        program, size, _script, logger, begun, ground, stations, room,
    );
    (played, desks, spent)
}

// A station for each rank, and what they share.
#[tactic(auto, using(crate::proofs::SeatingLemmas::played_laws))]
fn set_out<'l, W: Wait + Drop + Copy>(
    rt: W,
    alloc: Heap,
    size: u8,
    _script: &Script,
    stage: Stage<'l, W>,
    logger: &'l Logger,
    desks: Vec<Desk, Heap>,
) -> SetOut<'l, W>
    requires few { size ≤ most_ranks }
    requires stage { IsStage size _script.now stage }
    requires ranks { logger.now.ranks ≡ size }
    requires desks { AreDesks logger.now.table desks.items }
    requires a_desk_each { vec_len desks ≡ size }
    requires new { desks.items ≡ desks_below logger.now.table size }
    ensures out { IsSetOut size _script.now logger.now (stations_of result.stations.items) }
    ensures len { vec_len result.stations ≡ size }
    ensures room { IsRoom size result.room }
{
    let Stage {
        console,
        marks,
        bells,
        plans,
        ends,
        stations,
        room,
    } = stage;
    let parts = Unseated { desks, ends, plans };
    let script = Snapshot::of(_script);
    let stations = seat_all(rt, alloc, logger, size, script, parts, stations);
    let ground = Ground {
        console,
        marks,
        bells,
        stop: OnceLock::new(),
    };
    SetOut {
        ground,
        stations,
        room,
    }
}

// What is left when all stations are back, which were kept.
#[tactic(auto, using(crate::proofs::SeatingLemmas::played_laws))]
fn clear_away<'l, W: Wait + Drop + Copy>(
    _program: &Program,
    size: u8,
    _script: &Script,
    _logger: &'l Logger,
    _begun: Snapshot<Vec<Parcel<'l, W>, Heap>>,
    ground: Ground,
    stations: Vec<Parcel<'l, W>, Heap>,
    room: Remains,
) -> (Played, Vec<Desk, Heap>)
    requires out { IsSetOut size _script.now _logger.now (stations_of _begun.value.items) }
    requires kept { WereKept _program.now (stations_of _begun.value.items) (stations_of stations.items) }
    requires len { vec_len stations ≡ size }
    requires room { IsRoom size room }
    ensures played { IsPlayed _program.now size _script.now _logger.now result.1.items result.0 }
    ensures desks { AreDesks _logger.now.table result.1.items }
    ensures a_desk_each { vec_len result.1 ≡ size }
{
    let Ground {
        console,
        marks: _,
        bells: _,
        stop: _,
    } = ground;
    let Remains {
        desks,
        ends,
        accounts,
    } = unseat_all(stations, room);
    close_all(ends);
    let played = Played {
        console: console.into_state(),
        accounts,
    };
    (played, desks)
}
