//! What is left of a run as its report, if it can be validated, or why it has
//! none.
ghost use Rattle.std.specs.Prelude.{◌≡◌, ◌≤◌, None, IfOk, length, map, vec_len};
ghost use Rattle.limits.specs.Limits.{most_ranks};
ghost use Rattle.audit.specs.FinalRuns.Final.{IsConfirmed};
ghost use Rattle.audit.specs.Reachable.{IsReachable};
ghost use Rattle.event_logger.specs.Desks.{AreDesks};
ghost use Rattle.ports.specs.Console.{IsConsole};
ghost use Rattle.rank_threads.specs.Causes.{AreCaused, uncaused_from};
ghost use Rattle.rank_threads.specs.Faults.{crashes_from, fault_of, is_memory, lacked_memory, lowest_from};
ghost use Rattle.rank_threads.specs.Report.{IsMadeOf, IsOfDesks, IsOfLives, IsPlayed, IsReport};

use super::cause::{causes_of, find_uncaused};
use crate::costs::Costs;
use crate::life::Account;
use crate::playing::Played;
use crate::report::{Certified, Report, RunFault};
use crate::running::RunLimits;
use audit::final_runs::{confirmed_run, confirmed_run_behind};
use audit::{Ahead, End, Outcome};
use event_logger::{Counts, Desk, Ledger, Logger};
use limits::Heap;
use matching::Line;
use rank_language::Program;
use rank_node::NodeFault;
use rank_text::script::Script;
use std::alloc::AllocError;
use std::thread::Threads;

/// Closes the logger at whose desks a program was played, and answers the report
/// of the play, once it is confirmed, with the run that confirms it. The report is
/// of these desks, and of lives by this script, which clauses alone read. What was made
/// ahead isn't made again if the outcome begins with it. Threads of `rt` go through what
/// ranks did between two acts side by side.
#[tactic(auto, using(crate::proofs::ReportLemmas::is_within))]
pub fn certify<'p, R: Threads + Sync>(
    rt: &R,
    ahead: Ahead<'p>,
    alloc: Heap,
    program: &'p Program,
    ranks: u8,
    script: &Script,
    limits: RunLimits,
    played: Played,
    logger: Logger,
    desks: Vec<Desk, Heap>,
) -> Result<Certified<'p>, RunFault>
    requires ahead { ahead ≡ record { program = program.now; ranks = ranks; steps = limits.steps } }
    requires few { ranks ≤ most_ranks }
    requires ranks { logger.ranks ≡ ranks }
    requires desks { AreDesks logger.table desks.items }
    requires a_desk_each { vec_len desks ≡ ranks }
    requires played { IsPlayed program.now ranks script.now logger desks.items played }
    ensures report { IfOk result (λ certified. IsReport program.entry.now ranks certified.report) }
    ensures within { IfOk result (λ certified. IsReachable program.entry.now ranks certified.report.outcome limits.steps) }
    ensures run { IfOk result (λ certified. IsConfirmed program.entry.now ranks certified.report.outcome limits.steps certified.run) }
    ensures history { IfOk result (λ certified. IsOfDesks ranks desks.items certified.report) }
    ensures lives { IfOk result (λ certified. IsOfLives program.entry.now ranks script.now limits.steps logger desks.items certified.report) }
    ensures unfinished { IfOk result (λ certified. AreCaused limits.steps certified.report) }
{
    let report = report_of(alloc, program, ranks, script, limits, played, logger, desks)?;
    let run = confirmed_run_behind(rt, ahead, alloc, &report.outcome)?;
    Ok(Certified { report, run })
}

/// The same, on the caller's thread alone.
#[tactic(auto, using(crate::proofs::ReportLemmas::is_within))]
pub fn certify_in_turn<'p>(
    alloc: Heap,
    program: &'p Program,
    ranks: u8,
    script: &Script,
    limits: RunLimits,
    played: Played,
    logger: Logger,
    desks: Vec<Desk, Heap>,
) -> Result<Certified<'p>, RunFault>
    requires some { 1 ≤ ranks }
    requires few { ranks ≤ most_ranks }
    requires ranks { logger.ranks ≡ ranks }
    requires desks { AreDesks logger.table desks.items }
    requires a_desk_each { vec_len desks ≡ ranks }
    requires played { IsPlayed program.now ranks script.now logger desks.items played }
    ensures report { IfOk result (λ certified. IsReport program.entry.now ranks certified.report) }
    ensures within { IfOk result (λ certified. IsReachable program.entry.now ranks certified.report.outcome limits.steps) }
    ensures run { IfOk result (λ certified. IsConfirmed program.entry.now ranks certified.report.outcome limits.steps certified.run) }
    ensures history { IfOk result (λ certified. IsOfDesks ranks desks.items certified.report) }
    ensures lives { IfOk result (λ certified. IsOfLives program.entry.now ranks script.now limits.steps logger desks.items certified.report) }
    ensures unfinished { IfOk result (λ certified. AreCaused limits.steps certified.report) }
{
    let report = report_of(alloc, program, ranks, script, limits, played, logger, desks)?;
    let run = confirmed_run(alloc, program, ranks, &report.outcome, limits.steps)?;
    Ok(Certified { report, run })
}

// The report of a play, whose logger is closed, unless a rank met a fault. No run confirms it yet.
#[tactic(auto, using(crate::proofs::ReportLemmas::report_laws, crate::proofs::CauseLemmas::caused_report))]
fn report_of(
    alloc: Heap,
    _program: &Program,
    ranks: u8,
    _script: &Script,
    limits: RunLimits,
    played: Played,
    logger: Logger,
    desks: Vec<Desk, Heap>,
) -> Result<Report, RunFault>
    requires few { ranks ≤ most_ranks }
    requires ranks { logger.ranks ≡ ranks }
    requires desks { AreDesks logger.table desks.items }
    requires a_desk_each { vec_len desks ≡ ranks }
    requires played { IsPlayed _program.now ranks _script.now logger desks.items played }
    ensures console { IfOk result (λ report. IsConsole report.outcome.lines) }
    ensures history { IfOk result (λ report. IsOfDesks ranks desks.items report) }
    ensures lives { IfOk result (λ report. IsOfLives _program.now ranks _script.now limits.steps logger desks.items report) }
    ensures unfinished { IfOk result (λ report. AreCaused limits.steps report) }
{
    let ledger = logger.close(alloc, desks)?;
    if let Some(fault) = fault_of(played.accounts.as_slice()) {
        return Err(fault);
    }
    if let Some(rank) = find_uncaused(limits.steps, played.accounts.as_slice(), &ledger) {
        return Err(RunFault::NoCause(rank));
    }
    Ok(make_report(alloc, limits, played, ledger)?)
}

/// Why the run has no report: refused memory, or else the fault of the lowest
/// rank that met one.
fn fault_of(accounts: &[Account]) -> Option<RunFault>
    requires { length accounts.now ≤ most_ranks }
    ensures { result ≡ fault_of accounts.now }
{
    if lacked_memory(accounts) {
        return Some(RunFault::Memory);
    }
    lowest_fault(accounts)
}

fn lacked_memory(accounts: &[Account]) -> bool
    ensures { result ≡ lacked_memory accounts.now }
{
    let mut rest = accounts;
    while let [one, more @ ..] = rest {
        if is_memory(one.fault) {
            return true;
        }
        rest = more;
    }
    false
}

fn is_memory(fault: Option<NodeFault>) -> bool
    ensures { result ≡ is_memory fault }
{
    match fault {
        Some(NodeFault::Memory) => true,
        None
        | Some(
            NodeFault::NotSettled
            | NodeFault::Shelf
            | NodeFault::Image
            | NodeFault::Replay
            | NodeFault::ClockSpent
            | NodeFault::Log,
        ) => false,
    }
}

fn lowest_fault(accounts: &[Account]) -> Option<RunFault>
    requires { length accounts.now ≤ most_ranks }
    ensures { result ≡ lowest_from 0 accounts.now }
{
    let mut rank = 0u8;
    let mut rest = accounts;
    while let [one, more @ ..] = rest {
        if let Some(fault) = one.fault {
            return Some(RunFault::Node(rank, fault));
        }
        rank += 1;
        rest = more;
    }
    None
}

/// What is left of a run as its report, where no rank met a fault.
fn make_report(
    alloc: Heap,
    limits: RunLimits,
    played: Played,
    ledger: Ledger,
) -> Result<Report, AllocError>
    requires few { length played.accounts.items ≤ most_ranks }
    requires well { fault_of played.accounts.items ≡ None }
    ensures made { IfOk result (IsMadeOf limits.steps played ledger) }
{
    let Played { console, accounts } = played;
    let causes = causes_of(alloc, limits.steps, accounts.as_slice(), &ledger)?;
    let calls = calls_of(alloc, ledger.counts())?;
    let ends = ends_of(alloc, accounts.as_slice())?;
    let unused = unused_of(alloc, accounts.as_slice())?;
    let costs = costs_of(alloc, accounts.as_slice())?;
    let lines = copy_lines(alloc, console.lines())?;
    Ok(Report {
        outcome: Outcome {
            rows: ledger.into_rows(),
            lines,
            ends,
        },
        causes,
        crashes: crashes_of(accounts.as_slice()),
        unused,
        calls,
        costs,
    })
}

fn crashes_of(accounts: &[Account]) -> u64
    ensures { result ≡ crashes_from 0 accounts.now }
{
    let mut crashes = 0u64;
    let mut rest = accounts;
    while let [one, more @ ..] = rest {
        crashes = crashes.saturating_add(one.crashes);
        rest = more;
    }
    crashes
}

fn ends_of(alloc: Heap, accounts: &[Account]) -> Result<Vec<End, Heap>, AllocError>
    ensures { IfOk result (λ ends. ends.items ≡ map (λ a. a.end) accounts.now) }
{
    accounts.iter().map(|one| one.end).collect(alloc)
}

fn unused_of(alloc: Heap, accounts: &[Account]) -> Result<Vec<usize, Heap>, AllocError>
    ensures { IfOk result (λ unused. unused.items ≡ map (λ a. a.unused) accounts.now) }
{
    accounts.iter().map(|one| one.unused).collect(alloc)
}

fn costs_of(alloc: Heap, accounts: &[Account]) -> Result<Vec<Costs, Heap>, AllocError>
    ensures { IfOk result (λ costs. costs.items ≡ map (λ a. a.costs) accounts.now) }
{
    accounts.iter().map(|one| one.costs).collect(alloc)
}

fn calls_of(alloc: Heap, counts: &[Counts]) -> Result<Vec<u64, Heap>, AllocError>
    ensures { IfOk result (λ calls. calls.items ≡ map (λ c. c.calls) counts.now) }
{
    counts.iter().map(|count| count.calls).collect(alloc)
}

fn copy_lines(alloc: Heap, lines: &[Line]) -> Result<Vec<Line, Heap>, AllocError>
    ensures { IfOk result (λ copy. copy.items ≡ lines.now) }
{
    lines.iter().copied().collect(alloc)
}
