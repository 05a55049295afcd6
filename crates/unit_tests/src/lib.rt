//! Tests over public calls alone: words of events, rows at their limits, the logger and the lanes on
//! threads, and the bytes of images.
//!
//! They see what no clause says, and values that the documented formats give. What the program shows is
//! in the cases of `tests/` instead.
#![tactic(auto)]

#[cfg(test)]
mod choices;
#[cfg(test)]
mod desks;
#[cfg(test)]
mod images;
#[cfg(test)]
mod lanes;
#[cfg(test)]
mod logger;
#[cfg(test)]
mod rows;
#[cfg(test)]
mod same;
#[cfg(test)]
mod words;
