//! What each rank printed.
ghost use Rattle.std.specs.Prelude.{◌≡◌, ◌<◌, [], ◌∷◌, ◌++◌, Some, IfOk, OnOk, OnErr, length, replicate, slice_get, slice_index_or, slice_set};
ghost use Rattle.limits.specs.Limits.{most_ranks};

use limits::{Heap, MOST_RANKS};
use std::alloc::AllocError;
use std::marker::Model;
use std::rc::Rc;

/// The values that one rank printed, in order.
#[derive(Drop)]
pub struct RankPrintedValues {
    values: Vec<i64, Heap>,
}

impl Model for RankPrintedValues {
    ghost use Rattle.std.specs.Prelude.{List, ℤ};

    ghost Value = { List ℤ };

    ghost view = { λ row. row.values.items };
}

impl Clone for RankPrintedValues {
    ghost is_clone = { λ row clone. clone ≡ row };

    fn clone(&self) -> Result<RankPrintedValues, AllocError> {
        Ok(RankPrintedValues {
            values: self.values.as_slice().to_vec(*self.values.allocator())?,
        })
    }
}

impl RankPrintedValues {
    fn new(alloc: Heap) -> RankPrintedValues
        ensures { result ≡ [] }
    {
        RankPrintedValues {
            values: Vec::new(alloc),
        }
    }

    fn as_slice(&self) -> &[i64]
        ensures { result.now ≡ self.now }
    {
        self.values.as_slice()
    }

    fn push(&mut self, value: i64) -> Result<(), AllocError>
        ensures ok { OnOk result (self.new ≡ self.old ++ value ∷ []) }
        ensures err { OnErr result (self.new ≡ self.old) }
    {
        self.values.push(value)?;
        Ok(())
    }
}

// A row for each rank that there may be.
#[derive(Drop)]
struct Rows {
    rows: Vec<RankPrintedValues, Heap>,
}

impl Model for Rows {
    ghost use Rattle.std.specs.Prelude.{List, ℤ};

    ghost Value = { List (List ℤ) };

    ghost view = { λ all. all.rows.items };
}

impl Clone for Rows {
    ghost is_clone = { λ all clone. clone ≡ all };

    fn clone(&self) -> Result<Rows, AllocError> {
        Ok(Rows {
            rows: self.rows.as_slice().to_vec(*self.rows.allocator())?,
        })
    }
}

impl Rows {
    fn push(&mut self, rank: u8, value: i64) -> Result<(), AllocError>
        requires { rank < length self.old }
        ensures ok { OnOk result (self.new ≡ slice_set self.old rank (slice_index_or self.old rank [] ++ value ∷ [])) }
        ensures err { OnErr result (self.new ≡ self.old) }
    {
        let row = &mut self.rows[usize::from(rank)];
        row.push(value)
    }
}

/// The lines of all ranks: a row for each rank that there may be.
#[derive(Drop)]
pub struct PrintedValues {
    // shared with the copies: the first in which a rank prints gets rows of its own
    shared: Rc<Rows, Heap>,
}

impl Model for PrintedValues {
    ghost use Rattle.std.specs.Prelude.{List, ℤ};

    ghost Value = { List (List ℤ) };

    ghost view = { λ lines. lines.shared.value };
}

impl PrintedValues {
    /// No rank has printed anything.
    pub fn new(alloc: Heap) -> Result<PrintedValues, AllocError>
        ensures { IfOk result (λ lines. lines ≡ replicate most_ranks []) }
    {
        let mut rows = Vec::new(alloc);
        for _ in 0..MOST_RANKS {
            rows.push(RankPrintedValues::new(alloc))?;
        }
        Ok(PrintedValues {
            shared: Rc::new(alloc, Rows { rows })?,
        })
    }

    /// The same lines: both share them until a rank prints in one of the two.
    pub fn copy(&self) -> Result<PrintedValues, AllocError>
        ensures { IfOk result (λ lines. lines ≡ self.now) }
    {
        Ok(PrintedValues {
            shared: self.shared.clone()?,
        })
    }

    /// What this rank printed.
    pub fn of(&self, rank: u8) -> &[i64]
        requires { rank < length self.now }
        ensures { slice_get self.now rank ≡ Some result.now }
    {
        let row = &self.shared.as_ref().rows[usize::from(rank)];
        row.as_slice()
    }

    /// The rank prints one value more.
    pub fn push(&mut self, rank: u8, value: i64) -> Result<(), AllocError>
        requires { rank < length self.old }
        ensures ok { OnOk result (self.new ≡ slice_set self.old rank (slice_index_or self.old rank [] ++ value ∷ [])) }
        ensures err { OnErr result (self.new ≡ self.old) }
    {
        let own = Rc::make_mut(&mut self.shared)?;
        own.push(rank, value)
    }
}
