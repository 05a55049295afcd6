//! A rank's life, turn by turn. Whoever schedules ranks calls `live`: a thread of
//! their own does it again and again, and `rounds` once a turn.
ghost use Rattle.std.specs.Prelude.{◌≡◌, true, false, None};
ghost use Rattle.rank_language.specs.Program.{ProgramValue};
ghost use Rattle.rank_node.specs.Phases.{settled_in};
ghost use Rattle.rank_threads.specs.Keeping.{HasLived};
ghost use Rattle.rank_threads.specs.Lives.{SameLife, SamePlace, SamePlan};
ghost use Rattle.rank_threads.specs.Phases.{NoneWaits};
ghost use Rattle.rank_threads.specs.Seats.{EndsAt, IsOverAt, IsSeat, KeepsSeat, MayEnd, SeatIsSettled, UsesBy, crashes_in, rests};
ghost use Rattle.rank_threads.specs.Stations.{SameStation};

use super::ending::{Ending, Why, end_life};
use super::seat::{Seat, put, settle_seat};
use super::station::Station;
use super::waiting::Patience;
use crate::hold::Hold;
use crate::life::Life;
use crate::shared::Shared;
use crate::stop::ToldToLeave;
use crate::turn::{After, TurnStart, begin, finish};
use audit::End;
use rank_node::NodeFault;
use std::mem::replace;
use std::sync::Wait;

/// Plays a life on a thread of its own, until the rank crashes or leaves: all that a
/// crash loses is of this thread alone. Where it can't begin, or all were told to
/// leave, it makes no turn.
pub fn run_life<'l, W: Wait, H: Hold>(
    rt: &W,
    shared: &Shared<'_, H>,
    station: Station<'l>,
) -> Station<'l>
    ensures lived { HasLived shared.now.program.now station.entry result }
    ensures same { SameStation station.entry result }
{
    let mut seat = Seat::Between(station);
    let mut patience = Patience::new();
    for _ in rt.forever() {
        let is_idle = live(rt, shared, &mut seat);
        if seat.is_over() {
            return seat.into_station();
        }
        wait_if(is_idle, &mut patience, &mut seat);
    }
    unreachable!()
}

// After an idle turn others go first.
fn wait_if(is_idle: bool, patience: &mut Patience, seat: &mut Seat<'_, '_>)
    ensures { (program : ProgramValue) → KeepsSeat program seat.old seat.new }
{
    if !is_idle {
        patience.end_wait();
        return;
    }
    if !patience.wait() {
        return;
    }
    if let Seat::Living(life) = seat {
        life.kit.tally.count_wait();
    }
}

/// A turn of a rank between two lives or in one: its life begins, goes on, or is
/// over by it. Answers whether the rank found nothing to do.
pub fn live<'p, 'l, W: Wait, H: Hold>(
    rt: &W,
    shared: &Shared<'p, H>,
    seat: &mut Seat<'p, 'l>,
) -> bool
    ensures { KeepsSeat shared.now.program.now seat.old seat.new }
{
    let Seat::Living(life) = seat else {
        begin_at(rt, shared, seat);
        return false;
    };
    let begun = begin_turn(rt, shared, life);
    settle_seat(seat);
    finish_turn(rt, shared, seat, begun)
}

// Whoever is between two lives begins the next one here.
//
// This function, as each that moves a rank in memory (`settle_now`, `end_life_at`, `keep_at`), is called
// and never inlined: the caller makes turn after turn, and would clear the room for each move, some
// kilobytes, in every one of them.
#[inline(never)]
fn begin_at<'p, 'l, W: Wait, H>(rt: &W, shared: &Shared<'p, H>, seat: &mut Seat<'p, 'l>)
    ensures { KeepsSeat shared.now.program.now seat.old seat.new }
{
    let taken = replace(seat, Seat::Empty);
    put(seat, begun_at(rt, shared, taken));
}

fn begun_at<'p, 'l, W: Wait, H>(rt: &W, shared: &Shared<'p, H>, seat: Seat<'p, 'l>) -> Seat<'p, 'l>
    ensures { KeepsSeat shared.now.program.now seat.entry result }
{
    match seat {
        Seat::Between(station) => begun(rt, shared, station),
        other => other,
    }
}

/// A life of the rank begins. Where it can't, it is over.
pub fn begun<'p, 'l, W: Wait, H>(
    rt: &W,
    shared: &Shared<'p, H>,
    station: Station<'l>,
) -> Seat<'p, 'l>
    ensures { IsSeat shared.now.program.now station.entry result }
{
    let life = station.begin(rt, shared);
    if life.kit.tally.fault.is_some() {
        return Seat::Over(life.leave(Some(End::Unfinished), false));
    }
    Seat::Living(life)
}

// What the first half of a turn came to.
#[derive(Drop)]
enum TurnBegun<'s> {
    // all were told to leave, so that no turn was made
    Told(ToldToLeave<'s>),
    Made(Result<TurnStart, NodeFault>),
}

// The first half of a turn, unless all were told to leave.
fn begin_turn<'s, W: Wait, H: Hold>(
    rt: &W,
    shared: &Shared<'s, H>,
    life: &mut Life<'_, '_>,
) -> TurnBegun<'s>
    ensures plan { SamePlan life.old life.new }
    ensures same { SameLife life.old life.new }
{
    match shared.stopped() {
        Some(stopped) => TurnBegun::Told(stopped),
        None => TurnBegun::Made(begin(rt, shared, life)),
    }
}

// What follows a turn. It must be spent.
enum TurnEnd<'s> {
    On { is_idle: bool },
    // the life is over
    Over(Ending<'s>),
}

// The other half of the turn of a rank that lives. Answers whether it was idle.
fn finish_turn<'s, W: Wait, H: Hold>(
    rt: &W,
    shared: &Shared<'s, H>,
    seat: &mut Seat<'_, '_>,
    begun: TurnBegun<'s>,
) -> bool
    requires { SeatIsSettled seat.old }
    ensures { KeepsSeat shared.now.program.now seat.old seat.new }
{
    let Seat::Living(life) = seat else {
        return false;
    };
    match end_turn(rt, shared, life, begun) {
        TurnEnd::On { is_idle } => is_idle,
        TurnEnd::Over(ended) => {
            end_life_at(seat, ended);
            false
        }
    }
}

// The life that goes on here is over by this ending.
#[inline(never)]
#[tactic(auto, using(crate::proofs::SeatLemmas::end_laws))]
fn end_life_at(seat: &mut Seat<'_, '_>, ended: Ending<'_>)
    requires { MayEnd ended seat.old }
    ensures { EndsAt ended.entry seat.old seat.new }
{
    let taken = replace(seat, Seat::Empty);
    let Seat::Living(life) = taken else {
        unreachable!()
    };
    put(seat, Seat::Over(end_life(life, ended)));
}

// How a turn that began so ends. A crash is counted, and nothing else as one.
fn end_turn<'s, W: Wait, H: Hold>(
    rt: &W,
    shared: &Shared<'s, H>,
    life: &mut Life<'_, '_>,
    begun: TurnBegun<'s>,
) -> TurnEnd<'s>
    requires { settled_in life.old.node.phase ≡ life.old.node.phase }
    ensures at { IsOverAt result life.new.node.phase }
    ensures lines { UsesBy result life.old.kit.plan life.new.kit.plan }
    ensures crashes { life.new.kit.tally.crashes ≡ crashes_in result life.old.kit.tally.crashes }
    ensures left { rests result ≡ true → life.new.kit.tally.fault ≡ None → life.new.kit.tally.is_refused ≡ false → NoneWaits life.new.node.phase }
    ensures same { SamePlace life.old life.new }
{
    let begun = match begun {
        TurnBegun::Told(stopped) => return TurnEnd::Over(Ending::Left(Why::Told(stopped))),
        TurnBegun::Made(begun) => begun,
    };
    match finish(rt, shared, life, begun) {
        After::Crash(killed) => {
            life.kit.tally.count_crash(&killed);
            TurnEnd::Over(Ending::Crashed(killed))
        }
        After::Leave(why) => TurnEnd::Over(Ending::Left(why)),
        After::Turn { is_idle } => TurnEnd::On { is_idle },
    }
}
