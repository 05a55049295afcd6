//! Programs and events of worlds.

use world_model::WorldEvent;
use world_model::WorldEvent::{Ack, Arrive, Crash, Image, Put, Release, Restart, Step, Store};

/// Events of a world of so many ranks of a program, each so often in succession.
#[derive(Clone, Copy)]
pub struct Row {
    pub about: &'static str,
    pub program: &'static [u8],
    pub ranks: u8,
    pub events: &'static [(u32, WorldEvent)],
}

pub const ROWS: [Row; 5] = [
    Row {
        about: "a replay that misses again, though the message came meanwhile",
        program: b"var f
if rank == 0
  send 1, 0, 9
else
  iprobe any, any, f
  print f
end
",
        ranks: 2,
        events: &[
            (4, Step { rank: 1 }),
            (1, Release { rank: 1 }),
            (1, Store { rank: 1 }),
            (1, Release { rank: 1 }),
            (1, Ack { rank: 1 }),
            (1, Release { rank: 1 }),
            (1, Crash { rank: 1 }),
            (3, Step { rank: 0 }),
            (1, Put { source: 0, dest: 1 }),
            (1, Restart { rank: 1 }),
            (
                1,
                Arrive {
                    source: 0,
                    dest: 1,
                    index: 0,
                },
            ),
            (5, Step { rank: 1 }),
            (1, Step { rank: 1 }),
        ],
    },
    Row {
        about: "an old ask, for what an image has",
        program: b"if rank == 0
  send 1, 0, 5
  send 1, 0, 6
  send 1, 0, 7
  send 1, 0, 8
end
",
        ranks: 2,
        events: &[
            (1, Crash { rank: 1 }),
            (1, Restart { rank: 1 }),
            (1, Put { source: 1, dest: 0 }),
            (4, Step { rank: 0 }),
            (1, Put { source: 0, dest: 1 }),
            (1, Put { source: 0, dest: 1 }),
            (1, Put { source: 0, dest: 1 }),
            (
                1,
                Arrive {
                    source: 0,
                    dest: 1,
                    index: 0,
                },
            ),
            (
                1,
                Arrive {
                    source: 0,
                    dest: 1,
                    index: 1,
                },
            ),
            (
                1,
                Arrive {
                    source: 0,
                    dest: 1,
                    index: 2,
                },
            ),
            (1, Image { rank: 1 }),
            (1, Put { source: 1, dest: 0 }),
            (
                1,
                Arrive {
                    source: 1,
                    dest: 0,
                    index: 1,
                },
            ),
            (
                1,
                Arrive {
                    source: 1,
                    dest: 0,
                    index: 0,
                },
            ),
            (1, Put { source: 0, dest: 1 }),
            (1, Step { rank: 0 }),
            (1, Put { source: 0, dest: 1 }),
        ],
    },
    Row {
        about: "a sender that crashes, and sends again",
        program: b"var x
if rank == 0
  send 1, 7, 41
else
  recv any, any, x
  print x + 1
end
",
        ranks: 2,
        events: &[
            (3, Step { rank: 0 }),
            (1, Put { source: 0, dest: 1 }),
            (1, Crash { rank: 0 }),
            (1, Crash { rank: 0 }),
            (1, Restart { rank: 0 }),
            (1, Put { source: 0, dest: 1 }),
            (1, Put { source: 0, dest: 0 }),
            (3, Step { rank: 0 }),
            (1, Put { source: 0, dest: 1 }),
            (
                1,
                Arrive {
                    source: 0,
                    dest: 1,
                    index: 0,
                },
            ),
            (
                1,
                Arrive {
                    source: 0,
                    dest: 1,
                    index: 2,
                },
            ),
            (
                1,
                Arrive {
                    source: 0,
                    dest: 1,
                    index: 1,
                },
            ),
        ],
    },
    Row {
        about: "an image, and a crash behind it",
        program: b"var x
if rank == 0
  send 1, 1, 10
  send 1, 2, 20
  send 1, 1, 30
else
  recv 0, 2, x
  print x
  recv any, any, x
  print x
end
",
        ranks: 2,
        events: &[
            (5, Step { rank: 0 }),
            (1, Put { source: 0, dest: 1 }),
            (1, Put { source: 0, dest: 1 }),
            (1, Put { source: 0, dest: 1 }),
            (
                1,
                Arrive {
                    source: 0,
                    dest: 1,
                    index: 0,
                },
            ),
            (
                1,
                Arrive {
                    source: 0,
                    dest: 1,
                    index: 1,
                },
            ),
            (
                1,
                Arrive {
                    source: 0,
                    dest: 1,
                    index: 2,
                },
            ),
            (3, Step { rank: 1 }),
            (1, Image { rank: 1 }),
            (1, Store { rank: 1 }),
            (1, Image { rank: 1 }),
            (1, Ack { rank: 1 }),
            (1, Image { rank: 1 }),
            (1, Put { source: 1, dest: 0 }),
            (1, Crash { rank: 1 }),
            (1, Restart { rank: 1 }),
            (1, Put { source: 1, dest: 0 }),
            (3, Step { rank: 1 }),
            (1, Store { rank: 1 }),
            (1, Ack { rank: 1 }),
            (1, Release { rank: 1 }),
        ],
    },
    Row {
        about: "as many lines as may wait, and one more",
        program: b"var f
var n
iprobe any, any, f
while n < 65
  print f
  let n = n + 1
end
",
        ranks: 1,
        events: &[
            (260, Step { rank: 0 }),
            (1, Step { rank: 0 }),
            (1, Store { rank: 0 }),
            (1, Ack { rank: 0 }),
            (1, Release { rank: 0 }),
            (1, Step { rank: 0 }),
        ],
    },
];
