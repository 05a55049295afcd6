//! The whole program `ftmpi` without the machine's own files and streams: `command` reads
//! words and files, and writes what they ask for.
//!
//! `run`, one run of a program that is parsed already, is passed on from
//! `rank_threads`.
#![tactic(auto)]

mod commands;
mod costs;
mod explored;
mod files;
mod output;
mod progress;
mod soaked;
mod words;

pub use audit::{AuditFault, End, Outcome};
pub use command_line::Job;
pub use commands::{Refusal, command, command_watched, do_job};
pub use explore::Watch;
pub use files::{FileFault, Files, MachineFiles};
pub use matching::Line;
pub use progress::Progress;
pub use rank_machine::MachineFault;
pub use rank_node::NodeFault;
pub use rank_text::script::{Script, ScriptFault, ScriptFaultKind, ScriptParseFault};
pub use rank_threads::{Cause, Hold, Report, RunFault, RunLimits, run};
pub use words::{WordsFault, words_given};
pub use world_model::events_text::{EventsFault, parse_events};
