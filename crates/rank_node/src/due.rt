//! What a rank owes another beside packets: a retransmission request, a
//! garbage-collection notice.

use crate::frame::{AskFrom, KeptUpto};

/// The frames that are due to a rank.
#[derive(Clone, Copy)]
pub struct Due {
    pub ask: Option<AskFrom>,
    pub kept: Option<KeptUpto>,
}
