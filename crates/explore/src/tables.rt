//! What a search knows of a program before it begins.
ghost use Rattle.std.specs.Prelude.{IfOk};

use crate::silences::Silences;
use crash_free::live_variables::Live;
use limits::Heap;
use rank_language::Program;
use std::alloc::AllocError;

/// What a search knows of a program before it begins.
#[derive(Drop)]
pub struct ProgramTables {
    /// What is unread at each position.
    pub live: Live,
    /// From which positions on a rank sends another no more.
    pub silences: Silences,
}

impl ProgramTables {
    ghost use Rattle.explore.specs.Tables.{AreTablesOf};

    /// The tables of a program on so many ranks. An `Err` means out of memory.
    pub fn of(alloc: Heap, program: &Program, ranks: u8) -> Result<ProgramTables, AllocError>
        ensures { IfOk result (λ tables. AreTablesOf program.now tables) }
    {
        Ok(ProgramTables {
            live: Live::of(alloc, program)?,
            silences: Silences::of(alloc, program, ranks)?,
        })
    }
}
