//! A keeper, the supervisor of a rank, starts and joins the threads of the
//! rank's lives (its incarnations).
ghost use Rattle.std.specs.Prelude.{◌≡◌, ◌≢◌, Some, None};
ghost use Rattle.event_logger.specs.Desks.{own_row};
ghost use Rattle.rank_node.specs.declared.fault.NodeFault.TheVariants.{Memory};
ghost use Rattle.rank_threads.specs.Dropping.{DropsAll};
ghost use Rattle.rank_threads.specs.Following.{Follows, LosesFrames, station_in};
ghost use Rattle.rank_threads.specs.Keeping.{HasLived, IsToldToLeave, Lives};
ghost use Rattle.rank_threads.specs.Stations.{SameRest, SameStation, HasRow};
ghost use Rattle.rank_threads.specs.Tally.{begun_again};

use super::dropping::drop_frames;
use super::living::run_life;
use super::parcel::{AfterLife, Parcel};
use super::station::Station;
use crate::hold::Hold;
use crate::shared::Shared;
use crate::stop::{StopToken, ToldToLeave};
use audit::End;
use rank_node::NodeFault;
use std::snapshot::Snapshot;
use std::sync::Wait;
use std::thread;
use std::thread::Threads;

/// Plays lives until one doesn't crash, the rank meets a fault, or all are told
/// to leave: the rank has come to its end in each case.
#[tactic(auto, using(crate::proofs::LifeLemmas::keeper_laws))]
pub fn keep<'l, R: Threads + Wait + Sync + Copy + Send, H: Hold + Sync>(
    rt: R,
    shared: &Shared<'_, H>,
    station: Station<'l>,
) -> Station<'l>
    ensures ended { result.end ≢ None }
    ensures lives { Lives shared.now.program.now station.entry result }
    ensures same { SameStation station.entry result }
{
    let mut station = station;
    for _ in rt.forever() {
        if let Some(stopped) = shared.stopped() {
            return leave_unfinished(station, stopped);
        }
        match follow(&rt, shared, spawn_life(rt, shared, station)) {
            Next::Life(next) => station = next,
            Next::Gone(gone) => return gone,
        }
    }
    unreachable!()
}

/// What follows a life. It must be spent.
pub enum Next<'l> {
    /// Another life, which begins at this station.
    Life(Station<'l>),
    /// Nothing: the rank lives no more.
    Gone(Station<'l>),
}

/// What follows a life from which the rank came back so. Where it crashed, its row
/// is fetched for the next life; it is given up if it has met a fault.
pub fn follow<'l, W: Wait, H>(rt: &W, shared: &Shared<'_, H>, station: Station<'l>) -> Next<'l>
    ensures follows { Follows shared.now.program.now station.entry result }
    ensures dropped { LosesFrames station.entry result }
    ensures same { SameStation station.entry (station_in result) }
{
    if station.end.is_some() {
        return Next::Gone(station);
    }
    let station = fetch_row(rt, shared, station);
    if station.kit.tally.fault.is_some() {
        return Next::Gone(give_up(station));
    }
    Next::Life(station)
}

// A rank that has a fault lives no more, and keeps it.
fn give_up<'l>(station: Station<'l>) -> Station<'l>
    ensures end { result.end ≢ None }
    ensures counts { result.kit.tally ≡ station.entry.kit.tally }
    ensures same { SameStation station.entry result }
{
    let mut station = station;
    station.end = Some(End::Unfinished);
    station
}

/// All were told to leave, so the rank lives no more.
pub fn leave_unfinished<'l>(station: Station<'l>, _: ToldToLeave<'_>) -> Station<'l>
    ensures told { IsToldToLeave station.entry result }
    ensures same { SameStation station.entry result }
{
    let mut station = station;
    station.end = Some(End::Unfinished);
    station
}

// The frames in the lanes into the rank are dropped, and its row is fetched.
fn fetch_row<'l, W: Wait, H>(rt: &W, shared: &Shared<'_, H>, station: Station<'l>) -> Station<'l>
    ensures row { result.kit.tally.fault ≡ None → HasRow result }
    ensures dropped { result.kit.tally.fault ≡ None → DropsAll station.entry result }
    ensures plan { result.kit.plan ≡ station.entry.kit.plan }
    ensures end { result.end ≡ station.entry.end }
    ensures stood { result.stood ≡ station.entry.stood }
    ensures shelf { result.down.shelf ≡ station.entry.down.shelf }
    ensures stored { own_row result.down.desk ≡ own_row station.entry.down.desk }
    ensures tally { result.kit.tally ≡ record (begun_again station.entry.kit.tally) { taken = result.kit.tally.taken; fault = result.kit.tally.fault } }
    ensures fault { result.kit.tally.fault ≢ Some Memory → result.kit.tally.fault ≡ station.entry.kit.tally.fault }
    ensures same { SameStation station.entry result }
{
    let mut station = station;
    drop_frames(&mut station);
    station.kit.tally.begin_again();
    match station.fetch(shared.alloc) {
        Ok(()) => station,
        Err(_) => refuse_life(station, shared.stop_all(rt, NodeFault::Memory)),
    }
}

// The rank has met refused memory, and all were told to leave.
fn refuse_life<'l>(station: Station<'l>, stop: StopToken<'_>) -> Station<'l>
    requires { stop.why ≡ Memory }
    ensures fault { result.kit.tally ≡ record station.entry.kit.tally { fault = Some Memory } }
    ensures down { result.down ≡ station.entry.down }
    ensures rest { SameRest station.entry result }
    ensures same { SameStation station.entry result }
{
    let mut station = station;
    station.kit.tally.refuse(stop);
    station
}

// A life of the rank that travels in the parcel.
fn live_in_parcel<'l, W: Wait + Drop + Copy, H: Hold>(
    shared: &Shared<'_, H>,
    parcel: Parcel<'l, W>,
) -> Parcel<'l, W>
    ensures lived { HasLived shared.now.program.now parcel.entry.station result.station }
    ensures same { SameStation parcel.entry.station result.station }
{
    let rt = parcel.rt;
    let station = run_life(&rt, shared, parcel.open());
    Parcel { rt, station }
}

/// What comes back where no thread could be made: the rank has met want of
/// memory, and all were told to leave.
pub fn refuse_parcel<'l, W: Wait + Drop + Copy>(
    parcel: Parcel<'l, W>,
    stop: StopToken<'_>,
) -> Parcel<'l, W>
    requires { stop.why ≡ Memory }
    ensures fault { result.station.kit.tally ≡ record parcel.entry.station.kit.tally { fault = Some Memory } }
    ensures same { SameStation parcel.entry.station result.station }
{
    let rt = parcel.rt;
    let station = refuse_life(parcel.open(), stop);
    Parcel { rt, station }
}

/// Plays one life in a thread. Where no thread can be made, all are told to
/// leave, and only then the life is begun here: it makes no turn.
#[tactic(auto, using(crate::proofs::LifeLemmas::met_fault))]
fn spawn_life<'l, R: Threads + Wait + Sync + Copy + Send, H: Hold + Sync>(
    rt: R,
    shared: &Shared<'_, H>,
    station: Station<'l>,
) -> Station<'l>
    ensures lived { HasLived shared.now.program.now station.entry result }
    ensures same { SameStation station.entry result }
{
    let parcel = Parcel { rt, station };
    thread::scope(
        thread::scope_env(),
        &rt,
        move |scope| -> Parcel<'_, R>
            ensures lived { HasLived shared.entry.now.program.now parcel.entry.station result.station }
            ensures same { SameStation parcel.entry.station result.station }
        {
            let promise = AfterLife(Snapshot::of(&parcel.station), Snapshot::of(&shared.program));
            let whole = move || -> Parcel<'_, R>
                ensures lived { HasLived shared.entry.now.program.now parcel.entry.station result.station }
                ensures same { SameStation parcel.entry.station result.station }
            { live_in_parcel(shared, parcel) };
            match scope.spawn_with(promise, whole) {
                Ok(child) => child.join(&rt),
                Err(back) => {
                    // What comes back is the whole life: it has to see that it is to leave.
                    let stop = shared.stop_all(&rt, NodeFault::Memory);
                    refuse_parcel((back.value)(), stop)
                }
            }
        },
    )
    .open()
}
