//! The files that the program's words name.
ghost use Rattle.std.specs.Prelude.{ℕ, List, IfOk};

use std::fs;
use std::io::ErrorKind;
use std::rt::Files as HostFiles;

/// Why a file gave no bytes.
#[derive(Clone, Copy)]
pub enum FileFault {
    /// It can't be read.
    Cannot,
    /// There is no memory for its bytes.
    Memory,
}

/// Where files are read from.
pub trait Files {
    /// What a file of a name may be read as: files, name, text. By default nothing is known of it.
    ghost holds: { Self → List ℕ → List ℕ → Type 0 } = { λ _ _ _. Unit {0} };

    /// All bytes of the file with this name.
    fn read(&mut self, name: &str) -> Result<Vec<u8>, FileFault>
        ensures text { IfOk result (λ text. holds self.old name.now text.items) }
        ensures kept { (file text : List ℕ) → holds self.new file text → holds self.old file text };
}

/// The files of the machine that the program runs on.
#[derive(Drop)]
pub struct MachineFiles<'a, R: HostFiles + AllocGlobal> {
    rt: &'a R,
}

impl<'a, R: HostFiles + AllocGlobal> MachineFiles<'a, R> {
    pub fn new(rt: &'a R) -> MachineFiles<'a, R> {
        MachineFiles { rt }
    }
}

impl<R: HostFiles + AllocGlobal> Files for MachineFiles<'_, R> {
    fn read(&mut self, name: &str) -> Result<Vec<u8>, FileFault> {
        match fs::read(self.rt, name) {
            Ok(bytes) => Ok(bytes),
            Err(error) if error.kind() == ErrorKind::OutOfMemory => Err(FileFault::Memory),
            Err(_) => Err(FileFault::Cannot),
        }
    }
}
