//! All ranks on the caller's thread, one turn at a time, in the order of a schedule.
ghost use Rattle.std.specs.Prelude.{◌≡◌, ◌≤◌, List, [], map, true, false, None, vec_len, vec_capacity};
ghost use Rattle.rank_language.specs.Program.{ProgramValue};
ghost use Rattle.rank_threads.specs.Keeping.{WereKept};
ghost use Rattle.rank_threads.specs.Seats.{AreGone, AreSeated, IsSeat, IsSeated, KeepsSeat, MovesOn, is_gone, is_living, is_over};
ghost use Rattle.rank_threads.specs.Stations.{stations_of};
ghost use Rattle.rank_threads.specs.declared.life.station.Station.{Station};

use super::ending::{Ending, Why, end_life};
use super::keeper::{Next, follow, leave_unfinished};
use super::living::{begun, live};
use super::parcel::Parcel;
use super::seat::{Seat, put};
use super::station::Station;
use crate::hold::Hold;
use crate::schedule::{Chooser, Schedule};
use crate::shared::Shared;
use crate::stop::{OutOfTurns, ToldToLeave};
use limits::Heap;
use std::mem::replace;
use std::sync::Wait;

/// Goes on with the rank of each station, turn by turn, until all have left, and
/// gives the stations back in their order. Where the turns are used up before, all
/// are told to leave.
pub fn keep_by_turns<'p, 'l, W: Wait + Drop + Copy, H: Hold>(
    rt: W,
    shared: &Shared<'p, H>,
    schedule: Schedule,
    stations: Vec<Parcel<'l, W>, Heap>,
    seats: Vec<Seat<'p, 'l>, Heap>,
) -> (Vec<Parcel<'l, W>, Heap>, Option<OutOfTurns>)
    requires vacant { seats.items ≡ [] }
    requires seats { vec_len stations ≤ vec_capacity seats }
    ensures kept { WereKept shared.now.program.now (stations_of stations.entry.items) (stations_of result.0.items) }
    ensures len { vec_len result.0 ≡ vec_len stations.entry }
    ensures room { vec_capacity result.0 ≡ vec_capacity stations.entry }
{
    let (stations, mut seats) = sit_down(stations, seats);
    let spent = play_out(&rt, shared, schedule, seats.as_mut_slice());
    (get_up(rt, seats, stations), spent)
}

// Until all have left, by themselves or as they were told to.
fn play_out<'p, 'l, W: Wait, H: Hold>(
    rt: &W,
    shared: &Shared<'p, H>,
    schedule: Schedule,
    seats: &mut [Seat<'p, 'l>],
) -> Option<OutOfTurns>
    ensures kept { (firsts : List Station) → AreSeated shared.now.program.now firsts seats.old → AreSeated shared.now.program.now firsts seats.new }
    ensures gone { (firsts : List Station) → AreSeated shared.now.program.now firsts seats.old → AreGone seats.new }
{
    match take_turns(rt, shared, schedule, seats) {
        Some(spent) => {
            leave_all(rt, shared, &spent, seats);
            Some(spent)
        }
        None => None,
    }
}

// Each rank takes a seat, in the order of ranks.
fn sit_down<'p, 'l, W: Wait + Drop + Copy>(
    stations: Vec<Parcel<'l, W>, Heap>,
    seats: Vec<Seat<'p, 'l>, Heap>,
) -> (Vec<Parcel<'l, W>, Heap>, Vec<Seat<'p, 'l>, Heap>)
    requires vacant { seats.items ≡ [] }
    requires seats { vec_len stations ≤ vec_capacity seats }
    ensures seated { result.1.items ≡ map Seat.Between (stations_of stations.entry.items) }
    ensures empty { result.0.items ≡ [] }
    ensures room { vec_capacity result.0 ≡ vec_capacity stations.entry }
    ensures len { vec_len result.1 ≡ vec_len stations.entry }
{
    let mut stations = stations;
    let mut seats = seats;
    while let Some(parcel) = stations.pop() {
        seats.push_reserved(Seat::Between(parcel.open()));
    }
    (stations, seats)
}

// Turn by turn, until all have left or the turns are used up.
fn take_turns<'p, 'l, W: Wait, H: Hold>(
    rt: &W,
    shared: &Shared<'p, H>,
    schedule: Schedule,
    seats: &mut [Seat<'p, 'l>],
) -> Option<OutOfTurns>
    ensures kept { (firsts : List Station) → AreSeated shared.now.program.now firsts seats.old → AreSeated shared.now.program.now firsts seats.new }
    ensures left { result ≡ None → AreGone seats.new }
{
    let mut chooser = Chooser::new(schedule.policy, schedule.seed);
    for _ in 0..schedule.turns {
        let Some(at) = chooser.next(seats) else {
            return None;
        };
        let is_idle = take_turn(rt, shared, &mut seats[at]);
        chooser.note(at, is_idle);
    }
    chooser.next(seats)?;
    Some(OutOfTurns::after(schedule.turns, schedule.turns))
}

// A turn of the rank that is here, or a step of its keeper. Answers whether the
// rank found nothing to do.
fn take_turn<'p, 'l, W: Wait, H: Hold>(
    rt: &W,
    shared: &Shared<'p, H>,
    seat: &mut Seat<'p, 'l>,
) -> bool
    ensures { MovesOn shared.now.program.now seat.old seat.new }
{
    match seat {
        Seat::Living(_) => live(rt, shared, seat),
        Seat::Between(_) | Seat::Over(_) | Seat::Gone(_) | Seat::Empty => {
            keep_at(rt, shared, seat);
            false
        }
    }
}

// A step of the keeper of the rank that is here, which is moved in memory: see `begin_at`.
#[inline(never)]
fn keep_at<'p, 'l, W: Wait, H>(rt: &W, shared: &Shared<'p, H>, seat: &mut Seat<'p, 'l>)
    ensures { MovesOn shared.now.program.now seat.old seat.new }
{
    let taken = replace(seat, Seat::Empty);
    put(seat, kept(rt, shared, taken));
}

// What a keeper does: the next life begins, or the last one is over.
fn kept<'p, 'l, W: Wait, H>(rt: &W, shared: &Shared<'p, H>, seat: Seat<'p, 'l>) -> Seat<'p, 'l>
    ensures { MovesOn shared.now.program.now seat.entry result }
{
    let station = match seat {
        Seat::Between(station) => return begun_unless_told(rt, shared, station),
        Seat::Over(station) => station,
        other => return other,
    };
    followed(rt, shared, station)
}

// The next life begins, unless all were told to leave.
fn begun_unless_told<'p, 'l, W: Wait, H>(
    rt: &W,
    shared: &Shared<'p, H>,
    station: Station<'l>,
) -> Seat<'p, 'l>
    ensures { IsSeat shared.now.program.now station.entry result }
{
    match shared.stopped() {
        Some(stopped) => Seat::Gone(leave_unfinished(station, stopped)),
        None => begun(rt, shared, station),
    }
}

// Where the rank is behind a life.
fn followed<'p, 'l, W: Wait, H>(
    rt: &W,
    shared: &Shared<'_, H>,
    station: Station<'l>,
) -> Seat<'p, 'l>
    ensures moved { MovesOn shared.now.program.now (Seat.Over station.entry) result }
    ensures idle { is_living result ≡ false }
    ensures followed { is_over result ≡ false }
{
    match follow(rt, shared, station) {
        Next::Life(station) => Seat::Between(station),
        Next::Gone(station) => Seat::Gone(station),
    }
}

// All are told to leave, as the turns are used up, and do.
fn leave_all<'p, 'l, W: Wait, H>(
    rt: &W,
    shared: &Shared<'_, H>,
    spent: &OutOfTurns,
    seats: &mut [Seat<'p, 'l>],
)
    ensures kept { (firsts : List Station) → AreSeated shared.now.program.now firsts seats.old → AreSeated shared.now.program.now firsts seats.new }
    ensures gone { (firsts : List Station) → AreSeated shared.now.program.now firsts seats.old → AreGone seats.new }
{
    for at in 0..seats.len() {
        leave(rt, shared, spent, &mut seats[at]);
    }
}

fn leave<'p, 'l, W: Wait, H>(
    rt: &W,
    shared: &Shared<'_, H>,
    spent: &OutOfTurns,
    seat: &mut Seat<'p, 'l>,
)
    ensures kept { MovesOn shared.now.program.now seat.old seat.new }
    ensures gone { (first : Station) → IsSeated shared.now.program.now first seat.old → is_gone seat.new ≡ true }
{
    let taken = replace(seat, Seat::Empty);
    let ended = ended(taken, shared.end_all(rt, spent));
    let idle = after_life(rt, shared, ended);
    put(seat, told(idle, shared.end_all(rt, spent)));
}

// The life of a rank that lives is over, as it was told to leave.
fn ended<'p, 'l>(seat: Seat<'p, 'l>, stopped: ToldToLeave<'_>) -> Seat<'p, 'l>
    ensures kept { (program : ProgramValue) → KeepsSeat program seat.entry result }
    ensures ended { is_living result ≡ false }
{
    match seat {
        Seat::Living(life) => Seat::Over(end_life(life, Ending::Left(Why::Told(stopped)))),
        other => other,
    }
}

// A rank whose life is over is behind it.
fn after_life<'p, 'l, W: Wait, H>(
    rt: &W,
    shared: &Shared<'_, H>,
    seat: Seat<'p, 'l>,
) -> Seat<'p, 'l>
    requires { is_living seat ≡ false }
    ensures moved { MovesOn shared.now.program.now seat.entry result }
    ensures idle { is_living result ≡ false }
    ensures followed { is_over result ≡ false }
{
    let station = match seat {
        Seat::Over(station) => station,
        other => return other,
    };
    followed(rt, shared, station)
}

// A rank between two lives leaves, as it was told to.
fn told<'p, 'l>(seat: Seat<'p, 'l>, stopped: ToldToLeave<'_>) -> Seat<'p, 'l>
    requires idle { is_living seat ≡ false }
    requires followed { is_over seat ≡ false }
    ensures moved { (program : ProgramValue) → MovesOn program seat.entry result }
    ensures gone { (program : ProgramValue) (first : Station) → IsSeated program first seat.entry → is_gone result ≡ true }
{
    match seat {
        Seat::Between(station) => Seat::Gone(leave_unfinished(station, stopped)),
        other => other,
    }
}

// The stations of ranks that have all left, in the order of parcels.
fn get_up<'p, 'l, W: Wait + Drop + Copy>(
    rt: W,
    seats: Vec<Seat<'p, 'l>, Heap>,
    stations: Vec<Parcel<'l, W>, Heap>,
) -> Vec<Parcel<'l, W>, Heap>
    requires gone { AreGone seats.items }
    requires empty { stations.items ≡ [] }
    requires room { vec_len seats ≤ vec_capacity stations }
    ensures kept { (program : ProgramValue) (firsts : List Station) → AreSeated program firsts seats.entry.items → WereKept program firsts (stations_of result.items) }
    ensures len { vec_len result ≡ vec_len seats.entry }
    ensures room { vec_capacity result ≡ vec_capacity stations.entry }
{
    let mut seats = seats;
    let mut stations = stations;
    while let Some(seat) = seats.pop() {
        let Seat::Gone(station) = seat else {
            unreachable!()
        };
        stations.push_reserved(Parcel { rt, station });
    }
    seats.destroy_empty();
    stations
}
