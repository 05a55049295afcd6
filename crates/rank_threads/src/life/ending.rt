//! How a life of a rank (an incarnation) ends.
ghost use Rattle.std.specs.Prelude.{◌≡◌, is_some, IfSome};
ghost use Rattle.rank_node.specs.Phases.{stable_in};
ghost use Rattle.rank_threads.specs.Endings.{IsKilledAt, end_after, is_rest, stood_after};
ghost use Rattle.rank_threads.specs.Ends.{end_at, end_of};
ghost use Rattle.rank_threads.specs.Orders.{is_kill};
ghost use Rattle.rank_threads.specs.Stations.{IsLifeOf};

use super::station::Station;
use crate::leaving::AllAtRest;
use crate::life::Life;
use crate::stop::ToldToLeave;
use audit::End;
use rank_machine::Want;
use rank_node::Phase;
use rank_text::script::Order;

/// The script kills the rank at its act of this clock. Only `kill_of` makes one,
/// and only `end_life` takes it: a rank that is killed crashes, and makes no
/// further act before.
pub struct KillToken {
    at: u32,
}

/// Why a rank leaves.
#[derive(Drop)]
pub enum Why<'s> {
    /// All ranks are at rest.
    AtRest(AllAtRest),
    /// All ranks were told to leave.
    Told(ToldToLeave<'s>),
}

/// How a life ended. It must be spent.
pub enum Ending<'s> {
    /// The script killed the rank.
    Crashed(KillToken),
    Left(Why<'s>),
}

/// That the rank is to crash, if the script's line for this clock says so.
pub fn kill_of(order: Option<Order>, clock: u32) -> Option<KillToken>
    ensures kill { is_some result ≡ is_kill order }
    ensures at { IfSome result (λ killed. killed.at ≡ clock) }
{
    match order {
        Some(Order::Kill) => Some(KillToken { at: clock }),
        Some(Order::Image) | None => None,
    }
}

/// The life is over: the rank has gone down, or left.
pub fn end_life<'l>(life: Life<'_, 'l>, ended: Ending<'_>) -> Station<'l>
    requires at { IsKilledAt ended life.node.phase }
    ensures end { result.end ≡ end_after ended.entry life.entry.kit.tally.is_spent life.entry.node.phase }
    ensures stood { result.stood ≡ stood_after ended.entry life.entry.node.phase }
    ensures down { result.down ≡ stable_in life.entry.node.phase }
    ensures plan { result.kit.plan ≡ life.entry.kit.plan }
    ensures tally { result.kit.tally ≡ life.entry.kit.tally }
    ensures same { IsLifeOf result life.entry }
{
    let (end, is_at_rest) = match ended {
        Ending::Crashed(KillToken { at: _ }) => (None, false),
        Ending::Left(why) => (Some(end_of(&life)), is_rest(&why)),
    };
    life.leave(end, is_at_rest)
}

fn is_rest(why: &Why<'_>) -> bool
    ensures { result ≡ is_rest why.now }
{
    match why {
        Why::AtRest(_) => true,
        Why::Told(_) => false,
    }
}

// A rank that a limit stopped, or that didn't come to the end of its row, is unfinished.
fn end_of(life: &Life<'_, '_>) -> End
    ensures { result ≡ end_of life.now.kit.tally.is_spent life.now.node.phase }
{
    if life.kit.tally.is_spent {
        return End::Unfinished;
    }
    match life.node.phase() {
        Phase::Running(rank) => end_at(rank.wants()),
        Phase::Replaying(_) | Phase::Down(_) => End::Unfinished,
    }
}

fn end_at(want: Want) -> End
    ensures { result ≡ end_at want }
{
    match want {
        Want::Halted => End::Halted,
        Want::Faulted(fault) => End::Faulted(fault),
        Want::Receive(_) | Want::Probe(_) => End::Stalled,
        Want::Internal | Want::Send { .. } | Want::TryProbe(_) | Want::Print(_) => End::Unfinished,
    }
}
