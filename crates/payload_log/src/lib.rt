//! The payload log of sender-based message logging: a sender keeps the payloads
//! that receivers may ask for again.
//!
//! A retransmission request, `ask`, moves the cursor back. When a receiver's
//! checkpoint makes packets superfluous, `prune` collects them as garbage.
#![tactic(auto)]

mod backlog;
mod laws;
mod payload_log;

pub use backlog::Backlog;
pub use laws::law_keeps;
pub use payload_log::PayloadLog;
