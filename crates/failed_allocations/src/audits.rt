//! Audits of outcomes.

use crate::again::{program_of, push};
use crate::out::Out;
use event_logger::{Event, Kind};
use limits::Heap;
use ports::Line;
use rank_language::Program;
use world_model::{AuditFault, Audited, End, Outcome, audit};

const TEXT: &[u8] = b"var x
if rank == 0
  send 1, 7, 41
else
  recv any, any, x
  print x + 1
end
";

/// An outcome of two ranks, and how many steps each may make.
#[derive(Clone, Copy)]
struct Case {
    about: &'static str,
    /// Of each event of rank 1 the clock of its sender and its own.
    row: &'static [(u32, u32)],
    /// What the line of rank 1 says.
    value: i64,
    /// How rank 0 ended.
    first: End,
    steps: u32,
}

/// What a run leaves.
const LEFT: Case = Case {
    about: "what a run leaves: ",
    row: &[(1, 1)],
    value: 42,
    first: End::Halted,
    steps: 1000,
};

static CASES: [Case; 6] = [
    LEFT,
    Case {
        about: "one event more: ",
        row: &[(1, 1), (1, 3)],
        ..LEFT
    },
    Case {
        about: "another message: ",
        row: &[(2, 1)],
        ..LEFT
    },
    Case {
        about: "another line: ",
        value: 43,
        ..LEFT
    },
    Case {
        about: "another end: ",
        first: End::Stalled,
        ..LEFT
    },
    Case {
        about: "too few steps: ",
        steps: 2,
        ..LEFT
    },
];

/// The events of a row go last in a list. Answers whether there was memory.
fn put_row(row: &mut Vec<Event, Heap>, clocks: &[(u32, u32)]) -> bool {
    for one in clocks {
        let (sent, received) = *one;
        if let Some(event) = Event::new(Kind::Reception, 0, sent, received) {
            if !push(row, event) {
                return false;
            }
        }
    }
    true
}

/// A list goes last in a list of lists. Answers whether there was memory.
fn push_row(rows: &mut Vec<Vec<Event, Heap>, Heap>, row: Vec<Event, Heap>) -> bool {
    match rows.push(row) {
        Ok(()) => true,
        Err(refused) => rows.push(refused.value).is_ok(),
    }
}

/// Fills an outcome of nothing. Answers whether there was memory.
fn put_outcome(alloc: Heap, outcome: &mut Outcome, case: &Case) -> bool {
    let mut row = Vec::new(alloc);
    let line = Line {
        rank: 1,
        clock: 2,
        value: case.value,
    };
    let is_filled = put_row(&mut row, case.row);
    let rows = push_row(&mut outcome.rows, Vec::new(alloc)) & push_row(&mut outcome.rows, row);
    let lines = push(&mut outcome.lines, line);
    let ends = push(&mut outcome.ends, case.first) & push(&mut outcome.ends, End::Halted);
    is_filled & rows & lines & ends
}

/// An audit, once more where it was refused its memory.
fn audit_of(
    alloc: Heap,
    program: &Program,
    outcome: &Outcome,
    steps: u32,
) -> Result<Audited, AuditFault> {
    match audit(alloc, program, 2, outcome, steps) {
        Err(AuditFault::Memory) => audit(alloc, program, 2, outcome, steps),
        answer => answer,
    }
}

fn show(out: &mut Out, program: &Program, case: &Case) {
    let mut outcome = Outcome {
        rows: Vec::new(out.alloc),
        lines: Vec::new(out.alloc),
        ends: Vec::new(out.alloc),
    };
    if !put_outcome(out.alloc, &mut outcome, case) {
        out.lack();
    }
    let answer = audit_of(out.alloc, program, &outcome, case.steps);
    if let Err(AuditFault::Memory) = answer {
        out.lack();
    }
    out.text(case.about);
    out.debug(&answer);
    out.text("\n");
}

/// Audits each outcome.
pub fn play(out: &mut Out) {
    out.text("== audits\n");
    let Some(program) = program_of(out.alloc, TEXT) else {
        out.lack();
        return;
    };
    for case in &CASES {
        show(out, &program, case);
    }
}
