//! Objects of JSON, as they are written on lines. What is added is left out where
//! memory runs out, and the last call says so.
mod lines;
mod list;
mod object;

pub use lines::JsonLines;
pub use list::List;
pub use object::Object;
