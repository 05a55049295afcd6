//! What the program says.
ghost use Rattle.std.specs.Prelude.{◌≡◌, ◌≤◌, [], string_bytes};

use limits::Heap;

/// The exit status and both texts, made whole before anything is written.
#[derive(Drop)]
pub struct Said {
    pub status: u8,
    pub out: Vec<u8, Heap>,
    pub err: String<Heap>,
    ghost known: { status ≤ 4 },
}

impl Said {
    /// A text for standard output.
    pub fn answer(alloc: Heap, status: u8, out: Vec<u8, Heap>) -> Said
        requires { status ≤ 4 }
        ensures status { result.status ≡ status }
        ensures out { result.out.items ≡ out.items }
        ensures err { string_bytes result.err ≡ [] }
    {
        Said {
            status,
            out,
            err: String::new(alloc),
        }
    }

    /// A text for standard error.
    pub fn refusal(alloc: Heap, status: u8, err: String<Heap>) -> Said
        requires { status ≤ 4 }
        ensures status { result.status ≡ status }
        ensures out { result.out.items ≡ [] }
        ensures err { string_bytes result.err ≡ string_bytes err }
    {
        Said {
            status,
            out: Vec::new(alloc),
            err,
        }
    }
}
