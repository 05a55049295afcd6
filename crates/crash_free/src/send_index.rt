//! Which act of a run sent the message that another one receives or finds.
mod indices;
mod sends;

pub use sends::Sends;
