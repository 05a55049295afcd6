//! The text of a world's events, one event a line, read or its first faulty
//! line, and written; and the text of what a world answers to them.
mod event_line;
mod fault;
mod line;
mod number;
mod output;
mod parse;
mod reply_line;
mod written;

pub use event_line::EventLine;
pub use fault::{EventsFault, EventsFaultKind};
pub use output::{run_text, world_text};
pub use parse::parse_events;
pub use reply_line::ReplyLine;
pub use written::{events_text, way_text};
