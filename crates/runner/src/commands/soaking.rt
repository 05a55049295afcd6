//! Many runs of a job's program, under scripts that are drawn at random.
ghost use Rattle.std.specs.Prelude.{◌≡◌, IfErr, IfOk, OnOk, string_bytes};
ghost use Rattle.runner.specs.Reasons.{IsSoakRefusal, IsSoakScriptRefusal, IsUndrawn, UnlessMemory};
ghost use Rattle.runner.specs.SoakText.{IsSoakText};
ghost use Rattle.runner.specs.Soaks.{AreSoaked, HasSoakStatus, IsDrawn, IsOneMore, IsSearched, IsSoakAnswer, IsSoakScriptAnswer};

use crate::commands::reading::{program_in, text_in};
use crate::commands::refusal::Refusal;
use crate::commands::run::report_by;
use crate::commands::said::Said;
use crate::commands::scheduling::{certified_by, schedule_of, schedule_of_run};
use crate::files::Files;
use crate::soaked::{Soaked, print_soaked};
use command_line::{SoakJob, SoakScriptJob};
use crash_free::Sim;
use explore::{Explored, Limits, SendMode, Watch, explore};
use limits::Heap;
use outcomes::soak::{Most, draw, text_of};
use rank_language::Program;
use rank_text::script::Script;
use rank_threads::{AuditStart, RunFault, RunLimits};
use run_events::laws::law_masks_reports;
use std::alloc::AllocError;
use std::sync::Wait;
use std::thread::Threads;

/// How far a search goes that says which outcomes are possible: as far as
/// `explore` does if it isn't told.
const SEARCH: Limits = Limits {
    runs: 100_000,
    steps: 100_000,
    states: 100_000,
};

// The script of a run, and its text.
#[derive(Drop)]
struct Drawn {
    text: String<Heap>,
    script: Script,
}

/// What the job's runs came to. The status is 1 where a rank isn't halted in one
/// of them, or one has no report.
#[tactic(auto, using(crate::proofs::Soaks::is_soak_answer, crate::proofs::Reasons::soak_unread, crate::proofs::Reasons::soak_faulty, crate::proofs::Reasons::soak_undrawn, crate::proofs::Reasons::of_memory))]
pub fn soaked<'a, R: Threads + Wait + Sync + Copy + Send, F: Files, W: Watch>(
    rt: &R,
    alloc: Heap,
    job: SoakJob<'a>,
    files: &mut F,
    watch: &mut W,
) -> Result<Said, Refusal<'a>>
    ensures answer { IfOk result (λ said. IsSoakAnswer (F.holds files.old job.entry.program.now) job.entry said.out.items said.status) }
    ensures refused { IfErr result (UnlessMemory (IsSoakRefusal (F.holds files.old) job.entry)) }
{
    let text = text_in(job.program, files)?;
    let program = Program::parse(alloc, text.as_slice())?;
    drop(text);
    let soaked = made(rt, alloc, job, &program, watch)?;
    let search = searched(alloc, job, &program, &soaked, watch);
    drop(program);
    let found = match search {
        Ok(found) => found,
        Err(error) => return Err(Refusal::from(error)),
    };
    let text = print_soaked(alloc, &soaked, &found, job.runs);
    drop(found);
    let status = status_of(&soaked);
    drop(soaked);
    match text {
        Ok(text) => Ok(Said::answer(alloc, status, text.into_bytes())),
        Err(error) => Err(Refusal::from(error)),
    }
}

/// The script of the run that the job names, if that is one of the job's runs.
#[tactic(auto, using(crate::proofs::Soaks::is_script_answer, crate::proofs::Reasons::script_of_program, crate::proofs::Reasons::script_of_number, crate::proofs::Reasons::script_undrawn))]
pub fn script_said<'a, R: Threads + Wait + Sync + Copy + Send, F: Files>(
    rt: &R,
    alloc: Heap,
    job: SoakScriptJob<'a>,
    files: &mut F,
) -> Result<Said, Refusal<'a>>
    ensures answer { IfOk result (λ said. IsSoakScriptAnswer (F.holds files.old job.entry.soak.program.now) job.entry said.out.items said.status) }
    ensures refused { IfErr result (UnlessMemory (IsSoakScriptRefusal (F.holds files.old) job.entry)) }
{
    let program = program_in(alloc, job.soak.program, files)?;
    if job.number > job.soak.runs {
        return Err(Refusal::NoRun(job.number));
    }
    let made = acts_of(rt, alloc, job.soak, &program);
    drop(program);
    let acts = match made {
        Ok(acts) => acts,
        Err(refusal) => return Err(refusal),
    };
    let drawn = drawn_for(alloc, job.soak, acts.as_slice(), job.number);
    drop(acts);
    match drawn {
        Ok(drawn) => Ok(Said::answer(alloc, 0, drawn.text.into_bytes())),
        Err(refusal) => Err(refusal),
    }
}

fn status_of(soaked: &Soaked) -> u8
    ensures { HasSoakStatus soaked.now result }
{
    if soaked.all_halted { 0 } else { 1 }
}

// What a search finds beside the runs, so that their outcomes are among its own.
#[tactic(auto, using(crate::proofs::Soaks::is_searched))]
fn searched<W: Watch>(
    alloc: Heap,
    job: SoakJob<'_>,
    program: &Program,
    _soaked: &Soaked,
    watch: &mut W,
) -> Result<Explored, AllocError>
    requires { AreSoaked program.now job job.runs _soaked.now }
    ensures { IfOk result (λ found. IsSearched program.now job.entry.ranks _soaked.now.histogram found) }
{
    law_masks_reports();
    explore(alloc, SendMode::Buffered, program, job.ranks, SEARCH, watch)
}

// The runs, from number 1 on.
#[tactic(auto, using(crate::proofs::Soaks::of_none))]
fn made<'a, R: Threads + Wait + Sync + Copy + Send, W: Watch>(
    rt: &R,
    alloc: Heap,
    job: SoakJob<'a>,
    program: &Program,
    watch: &mut W,
) -> Result<Soaked, Refusal<'a>>
    ensures made { IfOk result (λ soaked. AreSoaked program.now job.entry job.entry.runs soaked) }
    ensures refused { IfErr result (UnlessMemory (IsUndrawn job.entry.ranks)) }
{
    let acts = acts_of(rt, alloc, job, program)?;
    let mut soaked = Soaked::new(alloc);
    for number in 0..job.runs {
        make(
            rt,
            alloc,
            job,
            program,
            acts.as_slice(),
            number + 1,
            &mut soaked,
        )?;
        watch.looked(number + 1);
    }
    Ok(soaked)
}

// The run of this number: its script follows from that and the job's seed.
#[tactic(auto, using(crate::proofs::Soaks::is_failed, crate::proofs::Reasons::of_memory))]
fn make<'a, R: Threads + Wait + Sync + Copy + Send>(
    rt: &R,
    alloc: Heap,
    job: SoakJob<'a>,
    program: &Program,
    acts: &[u32],
    number: u32,
    soaked: &mut Soaked,
) -> Result<(), Refusal<'a>>
    ensures more { OnOk result (IsOneMore program.now job.entry number soaked.old soaked.new) }
    ensures refused { IfErr result (UnlessMemory (IsUndrawn job.entry.ranks)) }
{
    let drawn = drawn_for(alloc, job, acts, number)?;
    let (ranks, script) = (job.ranks, &drawn.script);
    let (limits, schedule) = (limits_of(job), schedule_of_run(job.scheduling, number));
    match report_by(rt, alloc, program, ranks, script, limits, schedule) {
        Ok(report) => {
            let noted = soaked.note(alloc, &report, script);
            drop(report);
            drop(drawn);
            match noted {
                Ok(()) => Ok(()),
                Err(error) => Err(Refusal::from(error)),
            }
        }
        Err(RunFault::Memory) => Err(Refusal::Memory),
        Err(fault) => {
            let why = Refusal::from(fault);
            let told = soaked.fail(alloc, number, why, drawn.text.as_str());
            drop(drawn);
            match told {
                Ok(()) => Ok(()),
                Err(error) => Err(Refusal::from(error)),
            }
        }
    }
}

#[tactic(auto, using(crate::proofs::Soaks::is_drawn, crate::proofs::Reasons::drawn_faulty, crate::proofs::Reasons::of_memory))]
fn drawn_for<'a>(
    alloc: Heap,
    job: SoakJob<'a>,
    acts: &[u32],
    number: u32,
) -> Result<Drawn, Refusal<'a>>
    ensures drawn { IfOk result (λ drawn. IsDrawn job.entry (string_bytes drawn.text) drawn.script) }
    ensures refused { IfErr result (UnlessMemory (IsUndrawn job.entry.ranks)) }
{
    let most = Most {
        kills: job.kills,
        images: job.images,
    };
    let (seed, of) = (u64::from(job.seed), u64::from(number));
    let lines = draw(alloc, seed, of, job.ranks, acts, most)?;
    let text = text_of(alloc, lines.as_slice())?;
    match Script::parse(alloc, text.as_bytes(), job.ranks) {
        Ok(script) => Ok(Drawn { text, script }),
        Err(fault) => Err(Refusal::from(fault)),
    }
}

// How many acts each rank makes in a run without a script.
#[tactic(auto, using(crate::proofs::Reasons::undrawn_run, crate::proofs::Reasons::of_memory))]
fn acts_of<'a, R: Threads + Wait + Sync + Copy + Send>(
    rt: &R,
    alloc: Heap,
    job: SoakJob<'a>,
    program: &Program,
) -> Result<Vec<u32, Heap>, Refusal<'a>>
    ensures { IfErr result (UnlessMemory (IsUndrawn job.entry.ranks)) }
{
    let (ranks, limits) = (job.ranks, limits_of(job));
    let script = Script::new(alloc);
    let schedule = schedule_of(job.scheduling);
    let start = AuditStart::Behind;
    let made = certified_by(rt, alloc, program, ranks, &script, limits, schedule, start);
    drop(script);
    let certified = match made {
        Ok(certified) => certified,
        Err(fault) => return Err(Refusal::from(fault)),
    };
    let acts = acts_in(alloc, &certified.run, ranks);
    drop(certified);
    match acts {
        Ok(acts) => Ok(acts),
        Err(error) => Err(Refusal::from(error)),
    }
}

fn acts_in(alloc: Heap, run: &Sim<'_>, ranks: u8) -> Result<Vec<u32, Heap>, AllocError> {
    let mut acts = Vec::new(alloc);
    for rank in 0..ranks {
        acts.push(acts_by(run, rank))?;
    }
    Ok(acts)
}

// A run has fewer acts than 2^32: each is one of the job's steps.
fn acts_by(run: &Sim<'_>, rank: u8) -> u32 {
    let mut acts = 0u32;
    for passed in run.acts() {
        if passed.rank == rank {
            acts = acts.saturating_add(1);
        }
    }
    acts
}

fn limits_of(job: SoakJob<'_>) -> RunLimits
    ensures idle { result.idle ≡ job.entry.idle }
    ensures steps { result.steps ≡ job.entry.steps }
    ensures images { result.images_every ≡ job.entry.images_every }
{
    RunLimits {
        idle: job.idle,
        steps: job.steps,
        images_every: job.images_every,
    }
}
