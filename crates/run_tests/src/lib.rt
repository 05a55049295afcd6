//! Tests of runs and of the whole program that need more than its words, files
//! and standard streams: a `Hold` that is told of acts, streams and clocks that
//! fail, and refusals that no run is known to have. `tests/` has all others.
#![tactic(auto)]

#[cfg(test)]
mod calls;
#[cfg(test)]
mod holds;
#[cfg(test)]
mod said;
#[cfg(test)]
mod same;
#[cfg(test)]
mod streams;
#[cfg(test)]
mod watching;
