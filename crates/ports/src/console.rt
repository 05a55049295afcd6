//! The console that all ranks share.
ghost use Rattle.std.specs.Sync.Mutex.{mutex_guard_value};
ghost use Rattle.ports.specs.Console.{IsConsole};

use crate::console_state::ConsoleState;
use limits::Heap;
use std::alloc::AllocError;
use std::sync::{Mutex, MutexGuard, Wait};

/// The console of a run on threads: one thread's console behind a lock.
///
/// Who has the lock shows lines as on a console of its own. What that one keeps
/// holds whenever the lock is free.
#[derive(Drop)]
pub struct Console {
    state: Mutex<ConsoleState>,
}

impl Console {
    /// A console on which nothing was shown, for ranks below `ranks`.
    pub fn new(alloc: Heap, ranks: u8) -> Result<Console, AllocError> {
        Ok(Console {
            state: Mutex::new(ConsoleState::new(alloc, ranks)?),
        })
    }

    /// Waits for the lock, and lends what it keeps.
    pub fn lock(&self, rt: &impl Wait) -> MutexGuard<'_, ConsoleState>
        ensures { IsConsole (mutex_guard_value result) }
    {
        let guard = self.state.lock(rt);
        // this call hands on what the type keeps
        guard.lines();
        guard
    }

    /// The console of one thread, once no other has it.
    pub fn into_state(self) -> ConsoleState
        ensures { IsConsole result }
    {
        let Console { state } = self;
        let state = state.into_inner();
        state.lines();
        state
    }
}
