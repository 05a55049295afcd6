//! The words of the program `ftmpi`, read by `clap`.
//!
//! Nothing here opens a file: a `Job` names what is to be read and within
//! which limits it runs.
#![tactic(auto)]

mod argument;
mod catching_up;
mod costing;
mod explain;
mod exploring;
mod help;
mod job;
mod judging;
mod named;
mod no_job;
mod range;
mod requests;
mod scheduling;
mod soaking;
mod syntax;
mod tracing;
mod words;

pub use catching_up::FinishJob;
pub use costing::CostForm;
pub use explain::ExplainJob;
pub use exploring::{ExploreForm, ExploreJob};
pub use job::{CJob, CheckJob, Job, RunJob, WorldJob};
pub use judging::JudgeJob;
pub use named::job_of;
pub use no_job::NoJob;
pub use scheduling::{Policy, Scheduling};
pub use soaking::{SoakJob, SoakScriptJob};
pub use tracing::{TraceForm, TraceJob};
