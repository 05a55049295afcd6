//! The keepers of all ranks, their supervisors, each on a thread of its own.
ghost use Rattle.std.specs.Prelude.{◌≡◌, vec_len, vec_capacity};
ghost use Rattle.rank_threads.specs.Keeping.{WasKept, WereKept};
ghost use Rattle.rank_threads.specs.Stations.{stations_of};

use super::keeper::{keep, refuse_parcel};
use super::parcel::{AfterLives, Parcel};
use crate::early_audit::audit_early;
use crate::hold::Hold;
use crate::shared::Shared;
use audit::Ahead;
use limits::Heap;
use rank_node::NodeFault;
use std::snapshot::Snapshot;
use std::sync::Wait;
use std::thread;
use std::thread::Threads;

/// Runs a keeper for each station, each on a thread of its own, and gives the
/// stations back in their order. Where a thread can't be made, all are told to leave
/// before its keeper is called, and all come back. While keepers are at work, the caller's
/// thread goes on with the run ahead, and gives it back.
#[cycle(crew)]
pub fn keep_all<'p, 'q, R: Threads + Wait + Sync + Copy + Send, H: Hold + Sync>(
    rt: R,
    shared: &Shared<'_, H>,
    stations: Vec<Parcel<'p, R>, Heap>,
    ahead: Ahead<'q>,
) -> (Vec<Parcel<'p, R>, Heap>, Ahead<'q>)
    ensures kept { WereKept shared.now.program.now (stations_of stations.entry.items) (stations_of result.0.items) }
    ensures len { vec_len result.0 ≡ vec_len stations.entry }
    ensures room { vec_capacity result.0 ≡ vec_capacity stations.entry }
    ensures ahead { result.1 ≡ ahead.entry }
{
    let mut stations = stations;
    let Some(parcel) = stations.pop() else {
        return (stations, audit_early(&rt, shared, ahead));
    };
    let (parcel, mut stations, ahead) = spawn_keeper(rt, shared, parcel, stations, ahead);
    stations.push_reserved(parcel);
    (stations, ahead)
}

fn keep_in_parcel<'p, R: Threads + Wait + Sync + Copy + Send, H: Hold + Sync>(
    shared: &Shared<'_, H>,
    parcel: Parcel<'p, R>,
) -> Parcel<'p, R>
    ensures { WasKept shared.now.program.now parcel.entry.station result.station }
{
    let rt = parcel.rt;
    let station = keep(rt, shared, parcel.open());
    if let Some(feed) = shared.feed(station.kit.rank) {
        feed.end();
    }
    Parcel { rt, station }
}

#[cycle(crew)]
#[tactic(auto, using(crate::proofs::Crews::kept_refused))]
fn spawn_keeper<'p, 'q, R: Threads + Wait + Sync + Copy + Send, H: Hold + Sync>(
    rt: R,
    shared: &Shared<'_, H>,
    parcel: Parcel<'p, R>,
    rest: Vec<Parcel<'p, R>, Heap>,
    ahead: Ahead<'q>,
) -> (Parcel<'p, R>, Vec<Parcel<'p, R>, Heap>, Ahead<'q>)
    ensures one { WasKept shared.now.program.now parcel.entry.station result.0.station }
    ensures kept { WereKept shared.now.program.now (stations_of rest.entry.items) (stations_of result.1.items) }
    ensures len { vec_len result.1 ≡ vec_len rest.entry }
    ensures room { vec_capacity result.1 ≡ vec_capacity rest.entry }
    ensures ahead { result.2 ≡ ahead.entry }
{
    thread::scope(
        thread::scope_env(),
        &rt,
        move |scope| -> (Parcel<'_, R>, Vec<Parcel<'_, R>, Heap>, Ahead<'_>)
            ensures one { WasKept shared.entry.now.program.now parcel.entry.station result.0.station }
            ensures kept { WereKept shared.entry.now.program.now (stations_of rest.entry.items) (stations_of result.1.items) }
            ensures len { vec_len result.1 ≡ vec_len rest.entry }
            ensures room { vec_capacity result.1 ≡ vec_capacity rest.entry }
            ensures ahead { result.2 ≡ ahead.entry }
        {
            let promise = AfterLives(Snapshot::of(&parcel.station), Snapshot::of(&shared.program));
            let whole = move || -> Parcel<'_, R>
                ensures { WasKept shared.entry.now.program.now parcel.entry.station result.station }
            { keep_in_parcel(shared, parcel) };
            match scope.spawn_with(promise, whole) {
                Ok(child) => {
                    let (rest, ahead) = keep_all(rt, shared, rest, ahead);
                    (child.join(&rt), rest, ahead)
                }
                Err(back) => {
                    // What comes back is the whole keeper: were it not to leave at once, it would wait
                    // for the keepers that aren't started yet.
                    let stop = shared.stop_all(&rt, NodeFault::Memory);
                    let parcel = refuse_parcel((back.value)(), stop);
                    let (rest, ahead) = keep_all(rt, shared, rest, ahead);
                    (parcel, rest, ahead)
                }
            }
        },
    )
}
