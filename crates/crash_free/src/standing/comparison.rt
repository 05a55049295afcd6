//! Compares a part that is kept with what a walk of a rank gives.
ghost use Rattle.std.specs.Prelude.{◌≡◌, true};

use crate::standing::{RowSink, Standing};
use std::marker::{Brand, PhantomData};

/// For proofs alone: the part that is kept. The walk knows nothing of it, so its
/// contracts can't say that it stays the same.
pub(crate) trait KeptPart {
    ghost use Rattle.crash_free.specs.Standing.{Rows};

    ghost kept: { Rows };
}

impl KeptPart for Brand {
    ghost use Rattle.crash_free.specs.Standing.{no_rows};

    ghost kept = { no_rows };
}

/// Another number or value comes than the part has, or one more.
#[derive(Drop)]
pub(crate) struct Differs;

/// A part that is kept, as far as what a walk gave is the same.
#[derive(Drop)]
pub(crate) struct Comparison<'a, K: KeptPart> {
    numbers: &'a [usize],
    number_count: usize,
    values: &'a [i64],
    value_count: usize,
    of: PhantomData<K>,
    ghost all_numbers: { numbers.now ≡ K.kept.numbers },
    ghost all_values: { values.now ≡ K.kept.values },
}

impl<'a, K: KeptPart> Comparison<'a, K> {
    ghost use Rattle.crash_free.specs.Standing.{beginning, no_rows};

    /// Of this part, before anything came.
    pub fn of(part: &'a Standing) -> Comparison<'a, K>
        requires { part.now ≡ K.kept }
        ensures { beginning result.number_count result.value_count K.kept ≡ no_rows }
    {
        Comparison {
            numbers: part.numbers(),
            number_count: 0,
            values: part.values(),
            value_count: 0,
            of: PhantomData,
        }
    }

    /// Whether all of the part came.
    #[tactic(auto, using(crate::proofs::Comparing::all_came))]
    pub fn is_whole(&self) -> bool
        ensures { result ≡ true → beginning self.now.number_count self.now.value_count K.kept ≡ K.kept }
    {
        self.number_count == self.numbers.len() && self.value_count == self.values.len()
    }
}

impl<K: KeptPart> RowSink for Comparison<'_, K> {
    ghost use Rattle.crash_free.specs.Standing.{beginning};

    type Stop = Differs;

    ghost rows = { λ c. beginning c.number_count c.value_count K.kept };

    #[inline(always)]
    #[tactic(auto, using(crate::proofs::Comparing::one_more))]
    fn number(&mut self, number: usize) -> Result<(), Differs> {
        if self.number_count < self.numbers.len() && self.numbers[self.number_count] == number {
            self.number_count += 1;
            return Ok(());
        }
        Err(Differs)
    }

    #[inline(always)]
    #[tactic(auto, using(crate::proofs::Comparing::one_more))]
    fn value(&mut self, value: i64) -> Result<(), Differs> {
        if self.value_count < self.values.len() && self.values[self.value_count] == value {
            self.value_count += 1;
            return Ok(());
        }
        Err(Differs)
    }
}
