//! The job that words name.
ghost use Rattle.std.specs.Prelude.{◌≡◌, IfErr, IfOk, IfSome, codes};
ghost use Rattle.command_line.specs.Jobs.{IsJobBy, IsJobOf};
ghost use Rattle.command_line.specs.Requests.{IsAsked};
ghost use Rattle.command_line.specs.Words.{texts};

mod checks;
mod runs;
mod searches;
mod soaks;
mod worlds;

use crate::help;
use crate::job::Job;
use crate::named::checks::{c_of, check_of, explain_of};
use crate::named::runs::{cost_form_of, run_of, trace_of};
use crate::named::searches::{explore_of, judge_of};
use crate::named::soaks::{script_of, soak_of};
use crate::named::worlds::{finish_of, world_of};
use crate::no_job::NoJob;
use crate::scheduling::is_unknown;
use crate::syntax::syntax;
use crate::words::{is, is_given, value_of};
use clap::error::ErrorKind;
use clap::{Command, Error};
use std::alloc::Global;

/// The job that the words name; the first word is the program's name.
///
/// Whether they are of the program's forms is what `clap` says, and it has the
/// texts of helps and mistakes.
pub fn job_of<'a>(alloc: Global, words: &'a [String]) -> Result<Job<'a>, NoJob>
    ensures named { IfOk result (λ job. IsJobOf (texts words.entry.now) job) }
    ensures asked { IfErr result (λ no_job. IsAsked (texts words.entry.now) no_job) }
{
    match parsed(alloc, words) {
        Ok(job) => Ok(job),
        Err(error) => Err(NoJob::of(alloc, words, &error)),
    }
}

fn parsed<'a>(alloc: Global, words: &'a [String]) -> Result<Job<'a>, Error>
    ensures { IfOk result (λ job. IsJobOf (texts words.entry.now) job) }
{
    let mut command = syntax(alloc)?;
    let job = job_by(&mut command, words);
    // written out, the drop is one call and not the whole drop of a command
    drop(command);
    job
}

// The job that the words name, if they are of this syntax.
fn job_by<'a>(command: &mut Command<'a>, words: &'a [String]) -> Result<Job<'a>, Error>
    ensures { IfOk result (λ job. IsJobOf (texts words.entry.now) job) }
{
    let matches = command.try_get_matches_from_mut(words)?;
    drop(matches);
    let Some(job) = named(words) else {
        let (kind, text) = if is_given("picture", words) {
            (ErrorKind::UnknownArgument, help::NO_PICTURE)
        } else if is_unknown(words) {
            (ErrorKind::InvalidValue, help::NO_POLICY)
        } else {
            (ErrorKind::MissingSubcommand, "no command was given")
        };
        return Err(command.error(kind, text)?);
    };
    Ok(job)
}

// The job that the words name.
fn named<'a>(words: &'a [String]) -> Option<Job<'a>>
    ensures { IfSome result (λ job. IsJobOf (texts words.entry.now) job) }
{
    match words {
        [_, command, arguments @ ..] => chosen(command.as_str(), arguments),
        _ => None,
    }
}

fn chosen<'a>(command: &str, arguments: &'a [String]) -> Option<Job<'a>>
    ensures { IfSome result (λ job. IsJobBy command.now (texts arguments.entry.now) job) }
{
    if is(command, "check") {
        check_of(command, arguments)
    } else if is(command, "c") {
        c_of(command, arguments)
    } else if is(command, "run") {
        match run_of(command, arguments, cost_form_of(arguments)) {
            Some(run) => Some(Job::Run(run)),
            None => None,
        }
    } else if is(command, "trace") {
        trace_of(command, arguments)
    } else if is(command, "world") {
        world_job(command, arguments)
    } else if is(command, "catch-up") {
        catch_up_job(command, arguments)
    } else if is(command, "explain") {
        explain_of(command, arguments)
    } else if is(command, "explore") {
        explore_of(command, arguments)
    } else if is(command, "judge") {
        judge_of(command, arguments)
    } else if is(command, "soak") {
        soak_job(command, arguments)
    } else {
        None
    }
}

fn world_job<'a>(command: &str, arguments: &'a [String]) -> Option<Job<'a>>
    requires { command.now ≡ codes "world" }
    ensures { IfSome result (λ job. IsJobBy command.now (texts arguments.entry.now) job) }
{
    match world_of(command, arguments) {
        Some(world) if is_given("json", arguments) => Some(Job::WorldJson(world)),
        Some(world) => Some(Job::World(world)),
        None => None,
    }
}

fn catch_up_job<'a>(command: &str, arguments: &'a [String]) -> Option<Job<'a>>
    requires { command.now ≡ codes "catch-up" }
    ensures { IfSome result (λ job. IsJobBy command.now (texts arguments.entry.now) job) }
{
    if is_given("to-the-end", arguments) {
        match finish_of(command, arguments) {
            Some(finish) => Some(Job::Finish(finish)),
            None => None,
        }
    } else {
        match world_of(command, arguments) {
            Some(world) => Some(Job::CatchUp(world)),
            None => None,
        }
    }
}

fn soak_job<'a>(command: &str, arguments: &'a [String]) -> Option<Job<'a>>
    requires { command.now ≡ codes "soak" }
    ensures { IfSome result (λ job. IsJobBy command.now (texts arguments.entry.now) job) }
{
    match value_of("script-of", arguments) {
        Some(_) => match script_of(command, arguments) {
            Some(script) => Some(Job::SoakScript(script)),
            None => None,
        },
        None => match soak_of(command, arguments) {
            Some(runs) => Some(Job::Soak(runs)),
            None => None,
        },
    }
}
