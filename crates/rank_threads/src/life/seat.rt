//! Where a rank is whose scheduler goes on with it turn by turn.
ghost use Rattle.std.specs.Prelude.{◌≡◌, true, false};
ghost use Rattle.rank_language.specs.Program.{ProgramValue};
ghost use Rattle.rank_threads.specs.Seats.{KeepsSeat, SeatIsSettled, is_gone, is_over};

use super::station::Station;
use crate::life::Life;
use crate::turn::settle;
use rank_node::Phase;
use std::mem::replace;

/// Where a rank is. A turn changes it in place: only as a life begins, settles or
/// is over, the rank is moved in memory. It must be spent.
pub enum Seat<'p, 'l> {
    /// The rank's next life begins here.
    Between(Station<'l>),
    Living(Life<'p, 'l>),
    /// The life is over: the rank has crashed, or it has left.
    Over(Station<'l>),
    /// The rank lives no more.
    Gone(Station<'l>),
    /// Nobody: whoever was here is on the way to the next place.
    Empty,
}

impl<'p, 'l> Seat<'p, 'l> {
    /// Whether the life is over.
    pub fn is_over(&self) -> bool
        ensures { result ≡ is_over self.now }
    {
        match self {
            Seat::Over(_) => true,
            Seat::Between(_) | Seat::Living(_) | Seat::Gone(_) | Seat::Empty => false,
        }
    }

    /// Whether the rank lives no more.
    pub fn is_gone(&self) -> bool
        ensures { result ≡ is_gone self.now }
    {
        match self {
            Seat::Gone(_) => true,
            Seat::Between(_) | Seat::Living(_) | Seat::Over(_) | Seat::Empty => false,
        }
    }

    /// Whether the rank has crashed, and hasn't come back to where it was.
    pub fn is_recovering(&self) -> bool {
        match self {
            Seat::Between(station) | Seat::Over(station) => {
                station.end.is_none() && station.kit.tally.crashes > 0
            }
            Seat::Living(life) => match life.node.phase() {
                Phase::Replaying(_) => true,
                Phase::Running(_) | Phase::Down(_) => false,
            },
            Seat::Gone(_) | Seat::Empty => false,
        }
    }

    /// The station of a life that is over.
    pub fn into_station(self) -> Station<'l>
        requires { is_over self ≡ true }
        ensures { self.entry ≡ Seat.Over result }
    {
        let Seat::Over(station) = self else {
            unreachable!()
        };
        station
    }
}

/// Whoever was taken away is here again, or is here now.
pub fn put<'p, 'l>(seat: &mut Seat<'p, 'l>, next: Seat<'p, 'l>)
    requires { seat.old ≡ Seat.Empty }
    ensures { seat.new ≡ next.entry }
{
    match replace(seat, next) {
        Seat::Empty => {}
        Seat::Between(_station) | Seat::Over(_station) | Seat::Gone(_station) => unreachable!(),
        Seat::Living(_life) => unreachable!(),
    }
}

/// A rank that has nothing left to replay runs from now on.
pub fn settle_seat<'p, 'l>(seat: &mut Seat<'p, 'l>)
    ensures settled { SeatIsSettled seat.new }
    ensures kept { (program : ProgramValue) → KeepsSeat program seat.old seat.new }
{
    if has_replayed(seat) {
        settle_now(seat);
    }
}

// The rank is moved in memory: see `begin_at`.
#[inline(never)]
fn settle_now<'p, 'l>(seat: &mut Seat<'p, 'l>)
    ensures settled { SeatIsSettled seat.new }
    ensures kept { (program : ProgramValue) → KeepsSeat program seat.old seat.new }
{
    let taken = replace(seat, Seat::Empty);
    put(seat, settled(taken));
}

// Whether the rank is at the end of what it replays.
fn has_replayed(seat: &Seat<'_, '_>) -> bool
    ensures { result ≡ false → SeatIsSettled seat.now }
{
    match seat {
        Seat::Living(life) => life.node.has_replayed(),
        Seat::Between(_) | Seat::Over(_) | Seat::Gone(_) | Seat::Empty => false,
    }
}

fn settled<'p, 'l>(seat: Seat<'p, 'l>) -> Seat<'p, 'l>
    ensures settled { SeatIsSettled result }
    ensures kept { (program : ProgramValue) → KeepsSeat program seat.entry result }
{
    match seat {
        Seat::Living(life) => Seat::Living(settle(life)),
        other => other,
    }
}
