//! Why a rank is unfinished: a limit stopped it, or it still replayed when it left,
//! as it had found all ranks at rest.
ghost use Rattle.std.specs.Prelude.{◌≡◌, ◌≤◌, IfOk, length};
ghost use Rattle.limits.specs.Limits.{most_ranks};
ghost use Rattle.rank_threads.specs.Causes.{cause_met, cause_of, causes_from, events_at, lacks, limit_met, uncaused_from};

use crate::life::Account;
use audit::End;
use event_logger::Ledger;
use limits::{GREATEST_CLOCK, Heap, MOST_EVENTS};
use std::alloc::AllocError;

/// Why a rank is unfinished.
#[derive(Clone, Copy)]
pub enum Cause {
    /// It made so many steps in all its lives, as many as the limits allow or more.
    Steps(u32),
    /// It stands at this clock, the greatest.
    Clock(u32),
    /// Its row has as many events as a row may have.
    Events,
    /// It found all ranks at rest, and left, while it replayed, at this clock.
    Replay(u32),
}

/// The lowest rank that is unfinished without a cause, where `steps` are allowed.
pub fn find_uncaused(steps: u32, accounts: &[Account], ledger: &Ledger) -> Option<u8>
    requires { length accounts.now ≤ most_ranks }
    ensures { result ≡ uncaused_from steps 0 ledger.now.rows accounts.now }
{
    let mut rank = 0u8;
    let mut rest = accounts;
    while let [one, more @ ..] = rest {
        if lacks(one.end, cause_in(steps, ledger, rank, one)) {
            return Some(rank);
        }
        rank += 1;
        rest = more;
    }
    None
}

/// Why each rank is unfinished, where `steps` are allowed; none for any other.
#[tactic(auto, using(crate::proofs::CauseLemmas::cause_more))]
pub fn causes_of(
    alloc: Heap,
    steps: u32,
    accounts: &[Account],
    ledger: &Ledger,
) -> Result<Vec<Option<Cause>, Heap>, AllocError>
    requires { length accounts.now ≤ most_ranks }
    ensures { IfOk result (λ causes. causes.items ≡ causes_from steps 0 ledger.now.rows accounts.now) }
{
    let mut causes = Vec::new(alloc);
    let mut rank = 0u8;
    let mut rest = accounts;
    while let [one, more @ ..] = rest {
        causes.push(cause_in(steps, ledger, rank, one))?;
        rank += 1;
        rest = more;
    }
    Ok(causes)
}

// A rank that ended so is unfinished, but for no cause.
fn lacks(end: End, cause: Option<Cause>) -> bool
    ensures { result ≡ lacks end cause }
{
    match end {
        End::Halted | End::Faulted(_) | End::Stalled => false,
        End::Unfinished => match cause {
            None => true,
            Some(_) => false,
        },
    }
}

// Why this rank is unfinished, if it is.
fn cause_in(steps: u32, ledger: &Ledger, rank: u8, account: &Account) -> Option<Cause>
    ensures { result ≡ cause_of steps (events_at ledger.now.rows rank) account.now }
{
    match account.end {
        End::Halted | End::Faulted(_) | End::Stalled => None,
        End::Unfinished => cause_met(steps, events_in(ledger, rank), account),
    }
}

// Why a rank with so many events is unfinished.
fn cause_met(steps: u32, events: usize, account: &Account) -> Option<Cause>
    ensures { result ≡ cause_met steps events account.now }
{
    if account.is_spent {
        return limit_met(steps, events, account);
    }
    if account.stood.is_replaying && account.stood.is_at_rest {
        return Some(Cause::Replay(account.stood.clock));
    }
    None
}

// The limit that a rank with so many events met, if it met one.
fn limit_met(steps: u32, events: usize, account: &Account) -> Option<Cause>
    ensures { result ≡ limit_met steps events account.now }
{
    if account.steps >= steps {
        Some(Cause::Steps(account.steps))
    } else if account.stood.clock >= GREATEST_CLOCK {
        Some(Cause::Clock(account.stood.clock))
    } else if events >= MOST_EVENTS {
        Some(Cause::Events)
    } else {
        None
    }
}

// How many events the row of a rank has.
fn events_in(ledger: &Ledger, rank: u8) -> usize
    ensures { result ≡ events_at ledger.now.rows rank }
{
    let rank = usize::from(rank);
    if rank < ledger.ranks() {
        ledger.row(rank).len()
    } else {
        0
    }
}
