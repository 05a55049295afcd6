//! What a rank program never reads before it writes it again, so that states
//! that differ in nothing else come to the same.
pub mod laws;
mod line;
mod live;
mod name;
mod row;
mod unread;

pub use live::Live;
pub use row::Claims;
