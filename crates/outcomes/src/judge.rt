//! Whether some run without crashes has an outcome, and if none has, where the
//! outcome departs from what its ranks can do.
mod could;
mod follower;
mod verdict;
mod why;

pub use verdict::{Verdict, judge};
pub use why::{Question, why_text};
