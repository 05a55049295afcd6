//! Why an outcome isn't confirmed as final.
use crate::AuditFault;

/// Why an outcome isn't confirmed as final.
#[derive(Clone, Copy)]
pub enum FinalFault {
    /// It isn't one of a run without crashes within the steps, or memory was
    /// refused.
    Audit(AuditFault),
    /// This rank is reported as stalled, but a message is there that it waits
    /// for.
    FalseStall(u8),
}
