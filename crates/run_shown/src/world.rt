//! A world as JSON, an object a line: its program, and for each event the reply
//! and what the event changed.
mod acts;
mod determinants;
mod frames;
mod head;
mod logs;
mod names;
mod parts;
mod playing;
mod ranks;
mod standing;
mod wants;

pub use playing::{WorldTexts, world_json};
