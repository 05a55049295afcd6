//! Audits: whether an outcome is that of a run without crashes. A run of
//! threads is validated after the fact by this certifying checker, which is
//! proved.
#![tactic(auto)]

mod ahead;
mod auditing;
mod auditor;
mod clocks;
mod counts;
mod fault;
pub mod final_runs;
mod lines;
mod outcome;
mod progress;
mod trace;

pub use ahead::Ahead;
pub use auditing::{Audited, audit, find_run};
pub use clocks::Clocks;
pub use fault::AuditFault;
pub use matching::Line;
pub use outcome::{End, Outcome};
