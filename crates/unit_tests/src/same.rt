//! What the tests compare. `assert_eq!` writes its types and its message out wherever it stands, and each time they are
//! proved anew; these are proved once.

use event_logger::LogFault;
use std::process::Abort;

/// It is so, in this case.
pub fn holds(rt: &impl Abort, case: &str, is_so: bool) {
    assert!(rt; is_so, "{case}");
}

/// The number that is found is the one that is wanted, in this case.
pub fn same(rt: &impl Abort, case: &str, found: u64, wanted: u64) {
    assert!(rt; found == wanted, "{case}: {found} and not {wanted}");
}

/// An append at this clock is answered as it should be.
pub fn is_answered(
    rt: &impl Abort,
    clock: u32,
    found: Result<u32, LogFault>,
    wanted: Result<u32, LogFault>,
) {
    assert!(rt; found == wanted, "the append at clock {clock}");
}
