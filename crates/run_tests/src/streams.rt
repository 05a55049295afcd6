//! What streams show that take a part of a write, refuse it, or can't be flushed; and files for which there is no
//! memory.
use crate::calls::{Table, words_of};
use crate::same::same;
use runner::command;
use std::alloc::{AllocError, Global};
use std::io::{ErrorKind, Write};
use std::process::Abort;
use std::sync::Wait;
use std::thread::Threads;

/// A stream.
#[derive(Clone, Copy)]
enum Stream {
    /// Each write is refused.
    Closed,
    /// So many bytes are taken at a time, and a flush shows them.
    Takes(usize),
    /// Everything is taken, and a flush is refused.
    Stuck,
}

// What a stream took, and how much of that was flushed.
#[derive(Drop)]
struct Writer {
    stream: Stream,
    taken: Vec<u8>,
    flushed: usize,
}

impl Writer {
    fn new(alloc: Global, stream: Stream) -> Writer {
        Writer {
            stream,
            taken: Vec::new(alloc),
            flushed: 0,
        }
    }

    // What came through: all that was flushed.
    fn shown(&self) -> &str {
        let shown = self.taken.get(..self.flushed).unwrap_or(b"");
        std::str::from_utf8(shown).unwrap_or("no text")
    }
}

impl Write for Writer {
    fn write(&mut self, buf: &[u8]) -> std::io::Result<usize> {
        let most = match self.stream {
            Stream::Closed => return Err(std::io::Error::from(ErrorKind::BrokenPipe)),
            Stream::Takes(most) => most.min(buf.len()),
            Stream::Stuck => buf.len(),
        };
        self.taken.extend_from_slice(&buf[..most])?;
        Ok(most)
    }

    fn flush(&mut self) -> std::io::Result<()> {
        match self.stream {
            Stream::Takes(_) => {
                self.flushed = self.taken.len();
                Ok(())
            }
            Stream::Closed | Stream::Stuck => Err(std::io::Error::from(ErrorKind::BrokenPipe)),
        }
    }
}

/// Words, how standard output and standard error take them, the exit status, and what both show.
#[derive(Clone, Copy)]
struct Written {
    words: &'static str,
    out: Stream,
    err: Stream,
    status: u8,
    shown: (&'static str, &'static str),
}

/// A run of one line.
const OF_FIVE: &str = "0> 5\nrank 0: halted\ncrashes 0, logger calls 0\n";

const WRITTEN: [Written; 22] = [
    // All is written, however little is taken at a time, and it is flushed.
    Written {
        words: "ftmpi run --ranks 1 five",
        out: Stream::Takes(1),
        err: Stream::Closed,
        status: 0,
        shown: (OF_FIVE, ""),
    },
    Written {
        words: "ftmpi run --ranks 1 five",
        out: Stream::Takes(7),
        err: Stream::Stuck,
        status: 0,
        shown: (OF_FIVE, ""),
    },
    Written {
        words: "ftmpi world --ranks 1 p e",
        out: Stream::Takes(2),
        err: Stream::Closed,
        status: 0,
        shown: ("ended\n", ""),
    },
    Written {
        words: "ftmpi run --ranks 1 none",
        out: Stream::Closed,
        err: Stream::Takes(1),
        status: 2,
        shown: ("", "cannot read none\n"),
    },
    Written {
        words: "ftmpi run --ranks 1 large",
        out: Stream::Closed,
        err: Stream::Takes(3),
        status: 4,
        shown: ("", "out of memory\n"),
    },
    // Standard output had to take something: status 5, and nothing is said of it.
    Written {
        words: "ftmpi run --ranks 1 p",
        out: Stream::Closed,
        err: Stream::Takes(100),
        status: 5,
        shown: ("", ""),
    },
    Written {
        words: "ftmpi --help",
        out: Stream::Closed,
        err: Stream::Takes(100),
        status: 5,
        shown: ("", ""),
    },
    Written {
        words: "ftmpi world --ranks 1 p e",
        out: Stream::Closed,
        err: Stream::Takes(100),
        status: 5,
        shown: ("", ""),
    },
    // What is taken and isn't flushed isn't written, whatever the status would be.
    Written {
        words: "ftmpi run --ranks 1 p",
        out: Stream::Stuck,
        err: Stream::Takes(100),
        status: 5,
        shown: ("", ""),
    },
    Written {
        words: "ftmpi run --ranks 1 --steps 1 five",
        out: Stream::Stuck,
        err: Stream::Takes(100),
        status: 5,
        shown: ("", ""),
    },
    Written {
        words: "ftmpi check five",
        out: Stream::Stuck,
        err: Stream::Takes(100),
        status: 5,
        shown: ("", ""),
    },
    // A stream that takes nothing at all takes no part of it.
    Written {
        words: "ftmpi check five",
        out: Stream::Takes(0),
        err: Stream::Takes(100),
        status: 5,
        shown: ("", ""),
    },
    // A write to standard error that fails changes no status.
    Written {
        words: "ftmpi run --ranks 1 none",
        out: Stream::Closed,
        err: Stream::Closed,
        status: 2,
        shown: ("", ""),
    },
    Written {
        words: "ftmpi run",
        out: Stream::Closed,
        err: Stream::Closed,
        status: 3,
        shown: ("", ""),
    },
    Written {
        words: "ftmpi run --ranks 1 large",
        out: Stream::Closed,
        err: Stream::Closed,
        status: 4,
        shown: ("", ""),
    },
    Written {
        words: "ftmpi run --ranks 1 none",
        out: Stream::Stuck,
        err: Stream::Stuck,
        status: 2,
        shown: ("", ""),
    },
    Written {
        words: "ftmpi run --ranks 1 large",
        out: Stream::Stuck,
        err: Stream::Stuck,
        status: 4,
        shown: ("", ""),
    },
    Written {
        words: "ftmpi check large",
        out: Stream::Closed,
        err: Stream::Takes(100),
        status: 4,
        shown: ("", "out of memory\n"),
    },
    Written {
        words: "ftmpi run --ranks 1 --script large p",
        out: Stream::Closed,
        err: Stream::Takes(100),
        status: 4,
        shown: ("", "out of memory\n"),
    },
    Written {
        words: "ftmpi world --ranks 1 p large",
        out: Stream::Closed,
        err: Stream::Takes(100),
        status: 4,
        shown: ("", "out of memory\n"),
    },
    Written {
        words: "ftmpi catch-up --ranks 1 p large",
        out: Stream::Closed,
        err: Stream::Takes(100),
        status: 4,
        shown: ("", "out of memory\n"),
    },
    Written {
        words: "ftmpi catch-up --to-the-end --ranks 1 p large",
        out: Stream::Closed,
        err: Stream::Takes(100),
        status: 4,
        shown: ("", "out of memory\n"),
    },
];

// The program called with these words on these streams ends so, and they show this.
fn is_written<R: Threads + Wait + Sync + Copy + Send + AllocGlobal + Abort>(
    rt: &R,
    row: &Written,
) -> Result<(), AllocError> {
    let alloc = rt.alloc();
    let words = words_of(alloc, row.words)?;
    let mut files = Table {
        alloc,
        files: &[("p", ""), ("e", "step 0"), ("five", "print 5\n")],
    };
    let mut out = Writer::new(alloc, row.out);
    let mut err = Writer::new(alloc, row.err);
    let status = command(rt, alloc, words.as_slice(), &mut files, &mut out, &mut err);
    are_shown(rt, row, status, &out, &err);
    Ok(())
}

// The program ended so, and the streams show this.
fn are_shown<'a>(rt: &impl Abort, row: &'a Written, status: u8, out: &'a Writer, err: &'a Writer) {
    let found = (status, (out.shown(), err.shown()));
    same(rt, row.words, &found, &(row.status, row.shown));
}

#[test]
fn failed_writes(rt: HostRuntime) -> Result<(), AllocError> {
    for row in &WRITTEN {
        is_written(&rt, row)?;
    }
    Ok(())
}
