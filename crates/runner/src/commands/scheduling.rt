//! A run on threads, or in turns on one thread, as a job says.
ghost use Rattle.std.specs.Prelude.{◌≡◌, ◌≤◌, IfOk};
ghost use Rattle.audit.specs.Found.{IsFound};
ghost use Rattle.limits.specs.Limits.{most_ranks};
ghost use Rattle.runner.specs.Reports.{IsReportUnder};

use crate::commands::run::Nobody;
use command_line::{Policy, Scheduling};
use limits::Heap;
use rank_language::Program;
use rank_text::script::Script;
use rank_threads::{
    AuditStart, Certified, RunFault, RunLimits, Schedule, certified_run, certified_run_by_turns,
};
use std::sync::Wait;
use std::thread::Threads;

/// In turns no rank has to wait for another's core, so that one that waits looks
/// after so many idle turns at the latest whether it waits in vain.
const MOST_IDLE: u32 = 64;

/// The greatest seed that an option is given.
const MOST_SEED: u64 = 1_000_000_000;

/// The schedule of a run, if it is by turns.
pub fn schedule_of(scheduling: Scheduling) -> Option<Schedule> {
    scheduled(scheduling, u64::from(scheduling.seed))
}

/// That of the run of this number, from 1, among many: each has a seed of its own.
pub fn schedule_of_run(scheduling: Scheduling, number: u32) -> Option<Schedule> {
    let seed = u64::from(scheduling.seed) + u64::from(number.saturating_sub(1));
    scheduled(scheduling, seed % (MOST_SEED + 1))
}

fn scheduled(scheduling: Scheduling, seed: u64) -> Option<Schedule> {
    let policy = match scheduling.policy? {
        Policy::RoundRobin => rank_threads::Policy::RoundRobin,
        Policy::Uniform => rank_threads::Policy::Uniform,
        Policy::Starve => rank_threads::Policy::Starve,
        Policy::RunOn => rank_threads::Policy::RunOn,
        Policy::RecoveryFirst => rank_threads::Policy::RecoveryFirst,
    };
    Some(Schedule {
        policy,
        seed,
        turns: u64::from(scheduling.turns),
    })
}

/// The report of a run of the program under this script, in which nobody waits for
/// an act, with the run without crashes that has its outcome. Without a schedule
/// each rank is on a thread of its own, and the audit begins as `start` says; what is said
/// of the report is the same.
#[tactic(auto, using(crate::proofs::Answers::is_report_under))]
pub fn certified_by<'p, R: Threads + Wait + Sync + Copy + Send>(
    rt: &R,
    alloc: Heap,
    program: &'p Program,
    ranks: u8,
    script: &Script,
    limits: RunLimits,
    schedule: Option<Schedule>,
    start: AuditStart,
) -> Result<Certified<'p>, RunFault>
    requires some { 1 ≤ ranks }
    requires few { ranks ≤ most_ranks }
    ensures report { IfOk result (λ certified. IsReportUnder program.entry.now ranks script.now limits.steps certified.report) }
    ensures run { IfOk result (λ certified. IsFound program.entry.now ranks certified.report.outcome limits.steps certified.run) }
{
    match schedule {
        None => certified_run(rt, alloc, program, ranks, script, limits, &Nobody, start),
        Some(schedule) => certified_run_by_turns(
            rt,
            alloc,
            program,
            ranks,
            script,
            in_turns(limits),
            schedule,
            &Nobody,
        ),
    }
}

fn in_turns(limits: RunLimits) -> RunLimits
    ensures steps { result.steps ≡ limits.steps }
{
    RunLimits {
        idle: limits.idle.min(MOST_IDLE),
        ..limits
    }
}
