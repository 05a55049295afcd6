//! Soaks: a program runs again and again, its ranks crash at random, and the
//! outcomes are counted.
mod bar;
mod course;
mod drawing;
mod histogram;
mod laws;
mod most;
mod seen;
mod text;
mod used;

pub use bar::Bar;
pub use drawing::draw;
pub use histogram::Histogram;
pub use laws::law_counts;
pub use most::Most;
pub use seen::seen_of;
pub use text::text_of;
pub use used::images_used;
