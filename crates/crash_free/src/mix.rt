//! A cheap hash of numbers.

/// As FxHash has it, the hash of Firefox and of rustc.
const FACTOR: u64 = 0x517c_c1b7_2722_0a95;

/// A hash of numbers, one behind the other. Whoever looks something up by it
/// compares what is found there, so where two have one hash, that costs time
/// alone.
#[derive(Clone, Copy)]
pub struct Mix {
    hash: u64,
}

impl Mix {
    /// The hash of no number. FxHash begins with 0, which a first number 0 leaves
    /// as it is: then no number and any zeros have one hash.
    pub fn new() -> Mix {
        Mix { hash: FACTOR }
    }

    /// One number more.
    pub fn add(&mut self, number: u64) {
        self.hash = (self.hash.rotate_left(5) ^ number).wrapping_mul(FACTOR);
    }

    /// The hash of all that were added.
    pub fn finish(self) -> u64 {
        self.hash
    }
}
