//! One driver of the protocol: ranks on threads of their own, which a script
//! kills and images, and which start again and replay.
//!
//! The threads aren't verified end to end. A run is validated after the fact,
//! as a certifying program is: there is a report only if a verified checker
//! finds a crash-free run that explains it.
//!
//! Read it in this order:
//!
//! 1. `running`, `stage`, `playing`: a run from nothing to its report, what it
//!    needs before it has a logger, and all its ranks.
//! 2. `life`: a rank from life to life. Its station outlives its lives, its
//!    keeper starts and joins them, and the crew is all keepers.
//! 3. `turn`: a life goes turn by turn; a turn's seven parts, two in one file.
//! 4. `node`: the rank of `rank_node` at its logger, as a turn calls it.
//! 5. `leaving`: the marks of ranks at rest, and when a rank may leave.
//! 6. `report`: what is left of a run as its report, once that is validated.
//!
//! Beside these: what all ranks share (`shared`, `hold`), how they are told to
//! leave (`stop`), a rank's lanes
//! (`lanes_of`), what its script asks (`plan`), and what is counted of it
//! (`tally`; `meter` and `costs`).
#![tactic(auto)]

mod costs;
mod early_audit;
mod hold;
mod lanes_of;
mod leaving;
mod life;
mod meter;
mod node;
mod plan;
mod playing;
mod report;
mod running;
mod schedule;
mod shared;
mod stage;
mod stop;
mod tally;
mod turn;

pub use costs::{Costs, LogSize};
pub use early_audit::{AuditStart, EarlyAudit, Feed};
pub use hold::Hold;
pub use life::Seat;
pub use playing::{Played, play, play_by_turns};
pub use report::{Cause, Certified, Report, RunFault, certify, certify_in_turn};
pub use running::{RunLimits, certified_run, certified_run_by_turns, run};
pub use schedule::{Policy, Schedule};
pub use stage::Stage;
pub use stop::OutOfTurns;
