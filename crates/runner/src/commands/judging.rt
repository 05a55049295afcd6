//! Whether some run without crashes has the outcome of a file.
ghost use Rattle.std.specs.Prelude.{IfErr, IfOk, string_bytes};
ghost use Rattle.outcomes.specs.Text.Outcomes.{outcome_of};
ghost use Rattle.runner.specs.Judgments.{IsJudgeAnswer, IsYesText, TellsVerdict, TellsVerdictOf};
ghost use Rattle.runner.specs.Reasons.{IsJudgeRefusal, IsOutcomeRefusal, UnlessMemory};
ghost use Rattle.runner.specs.Traces.{TracesReport};
ghost use Rattle.rank_language.specs.StandOn.{IsLinedOf};

use crate::commands::reading::text_in;
use crate::commands::refusal::Refusal;
use crate::commands::said::Said;
use crate::files::Files;
use audit::{Outcome, find_run};
use command_line::JudgeJob;
use limits::Heap;
use outcomes::judge::{Question, Verdict, judge, why_text};
use outcomes::text::OutcomeText;
use rank_language::LinedProgram;
use run_shown::trace::{Given, trace_text};
use std::alloc::AllocError;

// The texts of the job's files.
#[derive(Drop)]
struct JudgeTexts {
    program: Vec<u8>,
    outcome: Vec<u8>,
}

/// The verdict on the job's outcome, with status 0 for yes and 1 for no. The
/// program is read and parsed before the outcome is read.
#[tactic(auto, using(crate::proofs::Judging::is_judge_answer, crate::proofs::Reasons::judge_unread, crate::proofs::Reasons::judge_faulty, crate::proofs::Reasons::judge_of_outcome))]
pub fn judged<'a, F: Files>(
    alloc: Heap,
    job: JudgeJob<'a>,
    files: &mut F,
) -> Result<Said, Refusal<'a>>
    ensures answer { IfOk result (λ said. IsJudgeAnswer (F.holds files.old) job.entry said.out.items said.status) }
    ensures refused { IfErr result (UnlessMemory (IsJudgeRefusal (F.holds files.old) job.entry)) }
{
    let text = text_in(job.program, files)?;
    let lined = LinedProgram::parse(alloc, text.as_slice())?;
    let said = judged_by(alloc, job, &lined, text, files);
    drop(lined);
    match said {
        Ok(said) => Ok(said),
        Err(refusal) => Err(refusal),
    }
}

// The same, of a program that is parsed.
#[tactic(auto, using(crate::proofs::Judging::tells_verdict_of, crate::proofs::Reasons::unread, crate::proofs::Reasons::faulty_outcome, crate::proofs::Reasons::of_memory))]
fn judged_by<'a, F: Files>(
    alloc: Heap,
    job: JudgeJob<'a>,
    lined: &LinedProgram,
    text: Vec<u8>,
    files: &mut F,
) -> Result<Said, Refusal<'a>>
    requires { IsLinedOf text.items lined.now.program lined.now.lines.items }
    ensures told { IfOk result (λ said. TellsVerdictOf (F.holds files.old job.entry.outcome.now) text.items lined.now.program job.entry
        said.out.items said.status) }
    ensures refused { IfErr result (UnlessMemory (IsOutcomeRefusal (F.holds files.old) job.entry.ranks job.entry.outcome)) }
{
    let texts = JudgeTexts {
        program: text,
        outcome: text_in(job.outcome, files)?,
    };
    let read = OutcomeText::parse(alloc, texts.outcome.as_slice(), job.ranks)?;
    let said = said_of(alloc, job, lined, &texts, &read);
    drop(read);
    drop(texts);
    match said {
        Ok(said) => Ok(said),
        Err(error) => Err(Refusal::from(error)),
    }
}

fn said_of(
    alloc: Heap,
    job: JudgeJob<'_>,
    lined: &LinedProgram,
    texts: &JudgeTexts,
    read: &OutcomeText,
) -> Result<Said, AllocError>
    requires { IsLinedOf texts.now.program.items lined.now.program lined.now.lines.items }
    ensures { IfOk result (λ said. TellsVerdict texts.now.program.items lined.now.program job.entry (outcome_of read.now)
        said.out.items said.status) }
{
    let outcome = read.outcome(alloc)?;
    verdict_on(alloc, job, lined, texts, read, &outcome)
}

// What is said of an outcome: a yes and a no are those of `judge`.
#[tactic(auto, using(crate::proofs::Judging::tells_yes, crate::proofs::Judging::tells_no))]
fn verdict_on(
    alloc: Heap,
    job: JudgeJob<'_>,
    lined: &LinedProgram,
    texts: &JudgeTexts,
    read: &OutcomeText,
    outcome: &Outcome,
) -> Result<Said, AllocError>
    requires { IsLinedOf texts.now.program.items lined.now.program lined.now.lines.items }
    ensures { IfOk result (λ said. TellsVerdict texts.now.program.items lined.now.program job.entry outcome.now said.out.items said.status) }
{
    match judge(alloc, &lined.program, job.ranks, outcome, job.steps)? {
        Verdict::Yes => {
            let text = yes_text(alloc, job, lined, texts, outcome)?;
            Ok(Said::answer(alloc, 0, text.into_bytes()))
        }
        Verdict::No(why) => {
            let asked = Question {
                program: &lined.program,
                text: texts.program.as_slice(),
                lines: lined.lines.as_slice(),
                ranks: job.ranks,
                steps: job.steps,
                outcome,
                read,
                outcome_text: texts.outcome.as_slice(),
            };
            let text = why_text(alloc, &asked, why)?;
            Ok(Said::answer(alloc, 1, text.into_bytes()))
        }
    }
}

// `yes`, and the run if it is wanted.
#[tactic(auto, using(crate::proofs::Judging::yes_alone, crate::proofs::Judging::yes_traced))]
fn yes_text(
    alloc: Heap,
    job: JudgeJob<'_>,
    lined: &LinedProgram,
    texts: &JudgeTexts,
    outcome: &Outcome,
) -> Result<String<Heap>, AllocError>
    requires { IsLinedOf texts.now.program.items lined.now.program lined.now.lines.items }
    ensures { IfOk result (λ text. IsYesText texts.now.program.items lined.now.program job.entry outcome.now (string_bytes text)) }
{
    let mut text = String::from_str(alloc, "yes\n")?;
    if job.trace {
        let run = run_text(alloc, job, lined, texts, outcome)?;
        text.push_str(run.as_str())?;
    }
    Ok(text)
}

// A run that has the outcome; within these steps there is one, so it is missed only where memory is short.
#[tactic(auto, using(crate::proofs::Traces::traces_report))]
fn run_text(
    alloc: Heap,
    job: JudgeJob<'_>,
    lined: &LinedProgram,
    texts: &JudgeTexts,
    outcome: &Outcome,
) -> Result<String<Heap>, AllocError>
    requires { IsLinedOf texts.now.program.items lined.now.program lined.now.lines.items }
    ensures { IfOk result (λ text. TracesReport texts.now.program.items lined.now.program job.entry.ranks outcome.now job.entry.steps
        (string_bytes text)) }
{
    let program = &lined.program;
    let given = Given {
        text: texts.program.as_slice(),
        lines: lined.lines.as_slice(),
        script: &[],
        orders: &[],
        unused: &[],
        images_every: None,
        outcome,
        whys: &[],
        crashes: 0,
        calls: 0,
    };
    match find_run(alloc, program, job.ranks, outcome, job.steps) {
        Ok(run) => trace_text(alloc, program, job.ranks, &run, given),
        Err(_) => Err(AllocError),
    }
}
