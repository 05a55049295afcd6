//! What is said of faults that no run or world is known to have.
use crate::same::same;
use runner::{AuditFault, NodeFault, Refusal};
use std::alloc::AllocError;

/// Refusals, with the line on standard error.
const SAID: [(Refusal<'static>, &str); 13] = [
    (Refusal::Audit(AuditFault::RowLeft), "audit fault 1\n"),
    (Refusal::Audit(AuditFault::NotEligible), "audit fault 2\n"),
    (Refusal::Audit(AuditFault::Output), "audit fault 3\n"),
    (Refusal::Audit(AuditFault::EndState), "audit fault 4\n"),
    (Refusal::Audit(AuditFault::Budget), "audit fault 5\n"),
    (Refusal::FalseStall(3), "rank 3: false stall\n"),
    (Refusal::NoCause(3), "rank 3: unfinished without a cause\n"),
    (
        Refusal::Node {
            rank: 0,
            fault: NodeFault::NotSettled,
        },
        "rank 0: node fault 1\n",
    ),
    (
        Refusal::Node {
            rank: 7,
            fault: NodeFault::Shelf,
        },
        "rank 7: node fault 2\n",
    ),
    (
        Refusal::Node {
            rank: 3,
            fault: NodeFault::Image,
        },
        "rank 3: node fault 3\n",
    ),
    (
        Refusal::Node {
            rank: 1,
            fault: NodeFault::Replay,
        },
        "rank 1: node fault 4\n",
    ),
    (
        Refusal::Node {
            rank: 2,
            fault: NodeFault::ClockSpent,
        },
        "rank 2: node fault 5\n",
    ),
    (
        Refusal::Node {
            rank: 2,
            fault: NodeFault::Log,
        },
        "rank 2: node fault 6\n",
    ),
];

#[test]
fn refusals_are_said(rt: HostRuntime) -> Result<(), AllocError> {
    for (refusal, text) in &SAID {
        let said = refusal.said(rt.alloc())?;
        let found = (said.status, said.out.len(), said.err.as_str());
        same(&rt, text, &found, &(1, 0, *text));
    }
    Ok(())
}
