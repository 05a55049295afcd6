//! When a run tells its `Hold` of acts: of each one before it is made, of a blocked one in every turn, and of two
//! ranks at the same time. A `Hold` that waits leads a run to where time alone may not.
use crate::same::same;
use limits::{Heap, MOST_RANKS};
use rank_language::Program;
use runner::{Cause, Hold, Report, RunLimits, Script, run};
use std::alloc::AllocError;
use std::fmt::Write;
use std::process::Abort;
use std::sync::Wait;
use std::sync::atomic::{AtomicBool, AtomicU64, Ordering};
use std::test::Fail;
use std::thread::Threads;

/// How often a rank looks at most whether it may go on. It never lets another thread go first: only ranks that run
/// at the same time see each other.
const LOOKS: u32 = 1_000_000_000;

/// A rank that waits, before its act of which clock, until which rank was told of its acts, and how often.
type Pause = (u8, u32, u8, u64);

/// A run, where its ranks wait, and how the text begins that says what they were told and what was reported.
struct Row {
    ranks: u8,
    idle: u32,
    steps: u32,
    program: &'static str,
    script: &'static str,
    pauses: &'static [Pause],
    want: &'static str,
}

/// Counts how often each rank is told of an act, and keeps the greatest clock that it is told of.
#[derive(Drop)]
struct Told {
    pauses: &'static [Pause],
    calls: Vec<AtomicU64>,
    clocks: Vec<AtomicU64>,
    // a clock was left out, or a rank waited in vain
    is_wrong: AtomicBool,
}

impl Told {
    fn new(alloc: Heap, row: &Row) -> Result<Told, AllocError> {
        let mut calls = Vec::new(alloc);
        let mut clocks = Vec::new(alloc);
        for _ in 0..row.ranks {
            calls.push(AtomicU64::new(0))?;
            clocks.push(AtomicU64::new(0))?;
        }
        Ok(Told {
            pauses: row.pauses,
            calls,
            clocks,
            is_wrong: AtomicBool::new(false),
        })
    }

    // Whether the rank was told so often, in time.
    fn has_come(&self, rank: u8, least: u64) -> bool {
        let Some(calls) = self.calls.get(usize::from(rank)) else {
            return false;
        };
        for _ in 0..LOOKS {
            if calls.load(Ordering::SeqCst) >= least {
                return true;
            }
        }
        false
    }

    // Counts this act, whose clock is at most one above the greatest. No other thread tells of its rank.
    fn is_counted(&self, rank: u8, clock: u64) -> bool {
        let place = usize::from(rank);
        let (Some(calls), Some(greatest)) = (self.calls.get(place), self.clocks.get(place)) else {
            return false;
        };
        let before = greatest.load(Ordering::SeqCst);
        greatest.store(clock.max(before), Ordering::SeqCst);
        calls.fetch_add(1, Ordering::SeqCst);
        1 <= clock && clock <= before.saturating_add(1)
    }
}

impl Hold for Told {
    fn before(&self, rank: u8, clock: u32) {
        let mut is_right = self.is_counted(rank, u64::from(clock));
        for pause in self.pauses {
            let (whose, when, of, least) = *pause;
            if whose == rank && when == clock {
                is_right = self.has_come(of, least) && is_right;
            }
        }
        if !is_right {
            self.is_wrong.store(true, Ordering::SeqCst);
        }
    }
}

/// Rank 0 sends 10 and 11, and rank 1 answers each with its double.
const PAIR: &str = "var i
var x
while i < 2
  if rank == 0
    send 1, 3, i + 10
    recv 1, 4, x
    print x
  else
    recv 0, 3, x
    print x
    send 0, 4, x * 2
  end
  let i = i + 1
end
";

/// Each of sixteen ranks sends its number to the next one.
const ROUND: &str = "var x\nsend (rank + 1) % size, rank, rank\nrecv any, any, x\nprint x\n";

/// Rank 1 takes one message and waits for another that never comes.
const TWICE: &str = "var x
if rank
  recv 0, 0, x
  recv 0, 0, x
else
  print 1
  print 2
  send 1, 0, 7
end
";

/// Rank 0 may be marked before rank 1 has counted and sends: the late frame takes the mark back.
const LATE: &str = "var x
if rank == 0
  recv any, any, x
  print x
  print x + 1
  print x + 2
else
  while x < 1000
    let x = x + 1
  end
  send 0, 0, 8
end
";

/// A late frame that the marked rank doesn't want takes the mark back too.
const UNWANTED: &str = "var x
if rank == 0
  recv 1, 5, x
else
  print 1
  print 2
  send 0, 4, 8
end
";

/// A rank that faults and one that waits.
const FAULTS: &str = "var x
if rank
  recv 0, 0, x
end
print 1
print 2
print 3
print 1 / 0
";

/// Rank 1 waits for the message, asks for it, and takes it.
const PROBES: &str = "var x
if rank
  probe 0, 4
  iprobe 0, 4, x
  recv 0, any, x
  print x
else
  print 1
  send 1, 4, 30
end
";

/// Rank 1 prints twice before rank 0 does, and then once more.
const IN_TURN: &str = "if rank
  print 2
  print 3
  print 4
else
  print 1
  send 0, 0, 0
end
";

/// Rank 1 doesn't want the first of two messages.
const SECOND: &str = "var x
if rank
  recv 0, 5, x
else
  send 1, 4, 8
  send 1, 5, 9
end
";

/// Rank 1 prints, and takes a message that came before.
const DROPPED: &str = "var x
if rank == 0
  send 1, 0, 7
  print 0
else
  print 1
  recv 0, 0, x
  print x
end
";

/// Rank 0 spends its steps before the message that rank 1 waits for in its replay.
const NEVER_AGAIN: &str = "var i
var x
if rank == 0
  print 7
  while i < 400
    let i = i + 1
  end
  send 1, 0, 5
  print 8
else
  recv 0, 0, x
  print x
end
";

const ROWS: [Row; 13] = [
    Row {
        ranks: 2,
        idle: 10,
        steps: 10000,
        program: PAIR,
        script: "",
        pauses: &[],
        want: "told 6 6; causes none none; lines 1 0 1 0;",
    },
    // Rank 1 crashes after its second send, and rank 0 in the replay of its first crash.
    Row {
        ranks: 2,
        idle: 10,
        steps: 10000,
        program: PAIR,
        script: "kill 1 at 6\nkill 0 at 5\nkill 0 at 2\n",
        pauses: &[],
        want: "told 6 6; causes none none; lines 1 0 1 0;",
    },
    Row {
        ranks: 16,
        idle: 10,
        steps: 10000,
        program: ROUND,
        script: "",
        pauses: &[],
        want: "told 3 3 3 3 3 3 3 3 3 3 3 3 3 3 3 3; causes none none none none none none none none none none none none none none none none;",
    },
    Row {
        ranks: 2,
        idle: 4,
        steps: 10000,
        program: TWICE,
        script: "",
        pauses: &[],
        want: "told 3 2; causes none none; lines 0 0;",
    },
    Row {
        ranks: 2,
        idle: 2,
        steps: 10000,
        program: LATE,
        script: "",
        pauses: &[],
        want: "told 4 1; causes none none; lines 0 0 0;",
    },
    Row {
        ranks: 2,
        idle: 2,
        steps: 10000,
        program: UNWANTED,
        script: "",
        pauses: &[],
        want: "told 1 3; causes none none; lines 1 1;",
    },
    Row {
        ranks: 2,
        idle: 1,
        steps: 10000,
        program: FAULTS,
        script: "",
        pauses: &[],
        want: "told 3 1; causes none none; lines 0 0 0;",
    },
    Row {
        ranks: 2,
        idle: 10,
        steps: 10000,
        program: PROBES,
        script: "",
        pauses: &[],
        want: "told 2 4; causes none none; lines 0 1;",
    },
    // Rank 0 makes no act before rank 1 is told of its third one, and rank 1 none before rank 0 is told of its first.
    // Were rank 0 told after its print, its line would stand before the second of rank 1.
    Row {
        ranks: 2,
        idle: 1000,
        steps: 1000,
        program: IN_TURN,
        script: "",
        pauses: &[(0, 1, 1, 3), (1, 1, 0, 1), (1, 3, 0, 2)],
        want: "told 2 3; causes none none; lines 1 1 0 1;",
    },
    // Rank 1 is told of its blocked receive in turns that bring nothing, before and after the frame that it doesn't want.
    Row {
        ranks: 2,
        idle: 1000,
        steps: 1000,
        program: SECOND,
        script: "",
        pauses: &[(0, 1, 1, 8), (0, 2, 1, 16)],
        want: "told 2 1; causes none none; lines;",
    },
    // Both ranks see each other, which no thread that plays them in turn could let them.
    Row {
        ranks: 2,
        idle: 1000,
        steps: 1000,
        program: "print rank\n",
        script: "",
        pauses: &[(0, 1, 1, 1), (1, 1, 0, 1)],
        want: "told 1 1; causes none none; lines",
    },
    // The message is on its way to rank 1 when that crashes: it is dropped, and sent again. Rank 0 sends once rank 1 has
    // looked into its lanes, and prints once rank 1 has restarted.
    Row {
        ranks: 2,
        idle: 1000,
        steps: 1000,
        program: DROPPED,
        script: "kill 1 at 1\n",
        pauses: &[(0, 1, 1, 1), (1, 1, 0, 2), (0, 2, 1, 2)],
        want: "told 2 3; causes none none; lines 1 0 1; costs 2 0, 1 1, 0, 0; 3 1, 0 0, 2, 1;",
    },
    // Rank 0 crashes behind its send, and has no steps left to make it again. Rank 1 crashes behind its reception, which
    // is stored, and waits in its replay for the message. It prints once rank 0 is in its second life.
    Row {
        ranks: 2,
        idle: 1000,
        steps: 1300,
        program: NEVER_AGAIN,
        script: "kill 0 at 3\nkill 1 at 2\n",
        pauses: &[(1, 2, 0, 4)],
        want: "told 3 2; causes steps 1300 replay 0; lines 0 0 1;",
    },
];

// What the ranks were told and why each is unfinished; whose lines were shown, in this order; and what recoveries cost
// each rank: acts, messages, asks and dropped frames.
fn described(alloc: Heap, told: &Told, report: &Report) -> Result<String<Heap>, AllocError> {
    let is_wrong = told.is_wrong.load(Ordering::SeqCst);
    let mut text = String::from_str(alloc, if is_wrong { "wrong" } else { "told" })?;
    for clock in told.clocks.iter() {
        write!(text, " {}", clock.load(Ordering::SeqCst))?;
    }
    text.push_str("; causes")?;
    for cause in report.causes.iter() {
        put_cause(&mut text, *cause)?;
    }
    text.push_str("; lines")?;
    for line in report.outcome.lines.iter() {
        write!(text, " {}", line.rank)?;
    }
    put_costs(&mut text, report)?;
    Ok(text)
}

fn put_cause(text: &mut String<Heap>, cause: Option<Cause>) -> Result<(), AllocError> {
    match cause {
        Some(Cause::Steps(made)) => write!(text, " steps {made}"),
        Some(Cause::Clock(clock)) => write!(text, " clock {clock}"),
        Some(Cause::Events) => text.push_str(" events"),
        Some(Cause::Replay(clock)) => write!(text, " replay {clock}"),
        None => text.push_str(" none"),
    }
}

fn put_costs(text: &mut String<Heap>, report: &Report) -> Result<(), AllocError> {
    text.push_str("; costs")?;
    for one in report.costs.iter() {
        let (acts, again) = (one.acts, one.acts_again);
        let (sent, resent) = (one.messages, one.messages_again);
        let (asks, dropped) = (one.asks, one.dropped);
        write!(text, " {acts} {again}, {sent} {resent}, {asks}, {dropped};")?;
    }
    Ok(())
}

// The report of this run.
fn report_of<R: Threads + Wait + Sync + Copy + Send + AllocGlobal + Abort>(
    rt: &R,
    row: &Row,
    told: &Told,
) -> Result<Report, Fail> {
    assert!(rt;
        1 <= row.ranks && row.ranks <= MOST_RANKS as u8,
        "a number of ranks"
    );
    let alloc = rt.alloc();
    let Ok(script) = Script::parse(alloc, row.script.as_bytes(), row.ranks) else {
        panic!(rt; "a script without a fault")
    };
    let program = Program::parse(alloc, row.program.as_bytes())?;
    let limits = RunLimits {
        idle: row.idle,
        steps: row.steps,
        images_every: None,
    };
    let Ok(report) = run(rt, alloc, &program, row.ranks, &script, limits, told) else {
        panic!(rt; "a run with a report")
    };
    Ok(report)
}

// The text of this run begins so.
fn is_told(
    rt: &impl Abort,
    alloc: Heap,
    row: &Row,
    told: &Told,
    report: &Report,
) -> Result<(), AllocError> {
    let text = described(alloc, told, report)?;
    let found = text.as_str();
    assert!(rt; found.starts_with(row.want), "{found} and not {}", row.want);
    Ok(())
}

fn expect<R: Threads + Wait + Sync + Copy + Send + AllocGlobal + Abort>(
    rt: &R,
    row: &Row,
) -> Result<(), Fail> {
    let told = Told::new(rt.alloc(), row)?;
    let report = report_of(rt, row, &told)?;
    Ok(is_told(rt, rt.alloc(), row, &told, &report)?)
}

#[test]
fn holds(rt: HostRuntime) -> Result<(), Fail> {
    for row in &ROWS {
        expect(&rt, row)?;
    }
    Ok(())
}
