//! What the tests compare. `assert_eq!` writes its types and its message out wherever it stands, and each time they are
//! proved anew; this is proved once.

use std::fmt::{Debug, Display};
use std::process::Abort;

/// What is found is what is wanted, in this case.
pub fn same<T: PartialEq + Debug>(
    rt: &impl Abort,
    case: impl Display + Drop,
    found: &T,
    wanted: &T,
) {
    assert_eq!(rt; *found, *wanted, "{case}");
}
