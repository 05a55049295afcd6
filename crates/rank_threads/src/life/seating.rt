//! From lanes and desks to stations, and back.
ghost use Rattle.std.specs.Prelude.{◌≡◌, ◌≤◌, [], vec_len, vec_capacity};
ghost use Rattle.limits.specs.Limits.{most_ranks};
ghost use Rattle.ports.specs.AllLanes.{to_names, from_names};
ghost use Rattle.rank_threads.specs.Plans.{plans_below};
ghost use Rattle.rank_threads.specs.Seating.{AreDesksFrom, ArePartsOf, AreNew, IsRoom};
ghost use Rattle.rank_threads.specs.Seating.{account_of, accounts_of, desks_of, lanes_from, lanes_to, plans_of};
ghost use Rattle.rank_threads.specs.Stations.{stations_of};

use super::parcel::Parcel;
use super::station::Station;
use super::stood::Stood;
use crate::costs::Costs;
use crate::plan::Plan;
use audit::End;
use event_logger::{Desk, Logger};
use limits::Heap;
use ports::{Ends, Rx, Tx};
use rank_node::NodeFault;
use rank_text::script::Script;
use std::snapshot::Snapshot;
use std::sync::Wait;

/// What the stations of a run are made of, each in the order of ranks.
pub struct Unseated {
    pub desks: Vec<Desk, Heap>,
    pub ends: Ends,
    pub plans: Vec<Plan, Heap>,
}

/// What a rank came to.
#[derive(Clone, Copy)]
pub struct Account {
    pub end: End,
    pub crashes: u64,
    /// How many steps it made in all its lives.
    pub steps: u32,
    /// Whether a limit stopped it.
    pub is_spent: bool,
    pub stood: Stood,
    /// How many of the script's lines for the rank weren't used.
    pub unused: usize,
    pub costs: Costs,
    pub fault: Option<NodeFault>,
}

/// What is left of the stations, each in the order of ranks.
pub struct Remains {
    pub desks: Vec<Desk, Heap>,
    pub ends: Ends,
    pub accounts: Vec<Account, Heap>,
}

/// A station for each rank, the last one's first, with what the script asks of
/// that rank: the snapshot, which has no bytes, says for clauses which script.
pub fn seat_all<'l, W: Wait + Drop + Copy>(
    rt: W,
    alloc: Heap,
    logger: &'l Logger,
    size: u8,
    _script: Snapshot<Script>,
    parts: Unseated,
    stations: Vec<Parcel<'l, W>, Heap>,
) -> Vec<Parcel<'l, W>, Heap>
    requires empty { stations.items ≡ [] }
    requires few { size ≤ most_ranks }
    requires ranks { logger.now.ranks ≡ size }
    requires desks { AreDesksFrom logger.now 0 parts.desks.items }
    requires sizes { ArePartsOf size parts }
    requires plans { parts.plans.items ≡ plans_below size _script.value }
    requires room { size ≤ vec_capacity stations }
    ensures to { lanes_to (stations_of result.items) ≡ to_names parts.ends.to.items }
    ensures from { lanes_from (stations_of result.items) ≡ from_names parts.ends.from.items }
    ensures desks { desks_of (stations_of result.items) ≡ parts.desks.items }
    ensures plans { plans_of (stations_of result.items) ≡ plans_below size _script.value }
    ensures fresh { AreNew (stations_of result.items) }
    ensures len { vec_len result ≡ size }
{
    let Unseated {
        mut desks,
        ends,
        mut plans,
    } = parts;
    let Ends { mut to, mut from } = ends;
    let mut stations = stations;
    while let Some(desk) = desks.pop() {
        let Some(to_each) = to.pop() else {
            unreachable!()
        };
        let Some(from_each) = from.pop() else {
            unreachable!()
        };
        let Some(plan) = plans.pop() else {
            unreachable!()
        };
        let rank = desks.len() as u8;
        let station = Station::new(alloc, logger, desk, rank, size, to_each, from_each, plan);
        stations.push_reserved(Parcel { rt, station });
    }
    desks.destroy_empty();
    stations
}

/// The lanes and desks of the stations, and what each rank came to.
pub fn unseat_all<'l, W: Wait + Drop + Copy>(
    stations: Vec<Parcel<'l, W>, Heap>,
    room: Remains,
) -> Remains
    requires { IsRoom (vec_len stations) room }
    ensures to { to_names result.ends.to.items ≡ lanes_to (stations_of stations.entry.items) }
    ensures from { from_names result.ends.from.items ≡ lanes_from (stations_of stations.entry.items) }
    ensures desks { result.desks.items ≡ desks_of (stations_of stations.entry.items) }
    ensures len { vec_len result.desks ≡ vec_len stations.entry }
    ensures accounts { result.accounts.items ≡ accounts_of (stations_of stations.entry.items) }
    ensures as_many { vec_len result.accounts ≡ vec_len stations.entry }
{
    let Remains {
        mut desks,
        ends,
        mut accounts,
    } = room;
    let Ends { mut to, mut from } = ends;
    let mut stations = stations;
    while let Some(parcel) = stations.pop() {
        let (desk, to_each, from_each, account) = take_apart(parcel.open());
        to.push_reserved(to_each);
        from.push_reserved(from_each);
        desks.push_reserved(desk);
        accounts.push_reserved(account);
    }
    stations.destroy_empty();
    Remains {
        desks,
        ends: Ends { to, from },
        accounts,
    }
}

// A rank that didn't leave by itself is unfinished.
fn take_apart(station: Station<'_>) -> (Desk, Vec<Tx, Heap>, Vec<Rx, Heap>, Account)
    ensures desk { result.0 ≡ station.entry.down.desk }
    ensures to { result.1 ≡ station.entry.kit.to }
    ensures from { result.2 ≡ station.entry.kit.from }
    ensures account { result.3 ≡ account_of station.entry }
{
    let account = Account {
        end: station.end.unwrap_or(End::Unfinished),
        crashes: station.kit.tally.crashes,
        steps: station.kit.tally.steps,
        is_spent: station.kit.tally.is_spent,
        stood: station.stood,
        unused: station.kit.plan.unused(),
        costs: station.kit.meter.costs,
        fault: station.kit.tally.fault,
    };
    let (desk, to, from) = station.close();
    (desk, to, from, account)
}
