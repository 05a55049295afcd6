//! What is told of a search while it goes on.
use crate::calls::{Table, words_of};
use crate::same::same;
use runner::{Progress, Watch, command_watched};
use std::alloc::{AllocError, Global};
use std::io::{ErrorKind, IsTerminal, Write};
use std::process::Abort;
use std::sync::Wait;
use std::sync::atomic::{AtomicU64, Ordering};
use std::thread::Threads;
use std::time::{Clock, Duration};

/// Rank 0 takes a message of each of four others: 24 orders, also where each send waits.
const FIRST_COME: &str =
    "var x\nvar i\nif rank == 0\nwhile i < 4\nrecv any, any, x\nprint source\nlet i = i + 1\nend\nelse\nsend 0, 0, 0\nend\n";

const WORDS: &str = "ftmpi explore --ranks 5 p";

/// Counts what it is told.
#[derive(Clone, Copy)]
struct Counter {
    calls: u32,
    last: u32,
    is_in_order: bool,
}

impl Watch for Counter {
    fn looked(&mut self, runs: u32) {
        self.calls = self.calls.saturating_add(1);
        // a second search counts anew
        let is_next = runs == 1 || runs == self.last.saturating_add(1);
        self.last = runs;
        self.is_in_order = self.is_in_order && is_next;
    }
}

// The exit status of the program called with these words, and the end of what it writes.
fn watched<R: Threads + Wait + Sync + Copy + Send + AllocGlobal, W: Watch>(
    rt: &R,
    words: &str,
    watch: &mut W,
) -> Result<(u8, bool), AllocError> {
    let alloc = rt.alloc();
    let words = words_of(alloc, words)?;
    let files = &[("p", FIRST_COME)];
    let mut files = Table { alloc, files };
    let (mut out, mut err) = (Vec::new(alloc), Vec::new(alloc));
    let words = words.as_slice();
    let status = command_watched(rt, alloc, words, &mut files, &mut out, &mut err, watch);
    let is_complete = out.ends_with(
        b"outcomes 24, runs 24, complete\n# safe: no send needs a buffer\n",
    );
    Ok((status, is_complete && err.is_empty()))
}

// So many searches tell of so many runs each, of each run once and in order.
fn expect_told<R: Threads + Wait + Sync + Copy + Send + AllocGlobal + Abort>(
    rt: &R,
    words: &str,
    want: (u8, bool),
    searches: u32,
    runs: u32,
) -> Result<(), AllocError> {
    let mut counter = Counter {
        calls: 0,
        last: 0,
        is_in_order: true,
    };
    let found = watched(rt, words, &mut counter)?;
    same(rt, words, &found, &want);
    let told = (counter.calls, counter.last, counter.is_in_order);
    same(
        rt,
        words,
        &told,
        &(searches.saturating_mul(runs), runs, true),
    );
    Ok(())
}

/// A clock by which half a second passes from look to look, or that can't be read.
#[derive(Drop)]
struct Ticks {
    looks: AtomicU64,
    is_stopped: bool,
}

impl Clock for Ticks {
    fn monotonic(&self) -> std::io::Result<Duration> {
        if self.is_stopped {
            return Err(std::io::Error::from(ErrorKind::Unsupported));
        }
        let looks = self.looks.fetch_add(1, Ordering::SeqCst);
        Ok(Duration::from_millis(looks.saturating_mul(500)))
    }

    fn since_1970(&self) -> std::io::Result<Duration> {
        Err(std::io::Error::from(ErrorKind::Unsupported))
    }
}

#[derive(Drop)]
struct Screen {
    is_terminal: bool,
    shown: Vec<u8>,
}

impl Write for Screen {
    fn write(&mut self, buf: &[u8]) -> std::io::Result<usize> {
        self.shown.extend_from_slice(buf)?;
        Ok(buf.len())
    }

    fn flush(&mut self) -> std::io::Result<()> {
        Ok(())
    }
}

impl IsTerminal for Screen {
    fn is_terminal(&self) -> bool {
        self.is_terminal
    }
}

// What two searches of 24 runs each show by such a clock.
fn expect_shown<R: Threads + Wait + Sync + Copy + Send + AllocGlobal + Abort>(
    rt: &R,
    is_stopped: bool,
    is_terminal: bool,
    want: &str,
) -> Result<(), AllocError> {
    let ticks = Ticks {
        looks: AtomicU64::new(0),
        is_stopped,
    };
    let mut screen = Screen {
        is_terminal,
        shown: Vec::new(rt.alloc()),
    };
    let mut progress = Progress::new(&ticks, &mut screen);
    let found = watched(rt, WORDS, &mut progress)?;
    same(rt, WORDS, &found, &(0, true));
    same(rt, "the screen", &screen.shown.as_slice(), &want.as_bytes());
    Ok(())
}

// A terminal is told after one second, and then each time that it took twice as long.
// The second search has looked at 8 runs when 16 seconds are over.
const TOLD: &str =
    "2 runs looked at\n4 runs looked at\n8 runs looked at\n16 runs looked at\n8 runs looked at\n";

#[test]
fn searches_tell_of_their_runs(rt: HostRuntime) -> Result<(), AllocError> {
    expect_told(&rt, WORDS, (0, true), 2, 24)?;
    expect_told(&rt, "ftmpi explore --ranks 5 --runs 7 p", (1, false), 1, 7)?;
    expect_told(&rt, "ftmpi run --ranks 5 p", (0, false), 0, 0)?;
    expect_shown(&rt, false, true, TOLD)?;
    expect_shown(&rt, false, false, "")?;
    expect_shown(&rt, true, true, "")
}
