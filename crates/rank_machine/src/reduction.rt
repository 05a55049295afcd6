//! How a reduction takes two values together.
ghost use Rattle.std.specs.Prelude.{◌≡◌};
ghost use Rattle.rank_machine.specs.Collectives.{combined};

use crate::fault::MachineFault;
use crate::operate::operated;
use rank_language::{Operator, Reduction};

/// Two values as one; a sum out of range is an overflow.
pub fn combined(reduction: Reduction, left: i64, right: i64) -> Result<i64, MachineFault>
    ensures { result ≡ combined reduction left right }
{
    match reduction {
        Reduction::Sum => operated(Operator::Add, left, right),
        Reduction::Max => Ok(if left <= right { right } else { left }),
        Reduction::Min => Ok(if left <= right { left } else { right }),
    }
}
