//! Which rank a machine is, of how many, where it stands, and what it has stored.
ghost use Rattle.std.specs.Prelude.{◌≡◌, ◌<◌};
ghost use Rattle.rank_machine.specs.Machine.{IsMachine};

use crate::fault::MachineFault;
use crate::items::Items;
use crate::machine::Machine;
use crate::status::Status;
use rank_language::Program;

impl<'p> Machine<'p> {
    /// The number of this rank, below the size.
    pub fn rank(&self) -> u8
        ensures rank { result ≡ self.now.store.rank }
        ensures below { result < self.now.store.size }
    {
        self.store.rank()
    }

    /// How many ranks there are.
    pub fn size(&self) -> u8
        ensures { result ≡ self.now.store.size }
    {
        self.store.size()
    }

    /// Which statement stands, from 0; after the last it is their number.
    pub fn position(&self) -> usize
        ensures { result ≡ self.now.position }
    {
        self.position
    }

    /// The program that it runs.
    pub fn program(&self) -> &'p Program
        ensures { result.now ≡ self.now.program }
    {
        self.program
    }

    /// The fault that an act left, if one did.
    pub fn fault(&self) -> Option<MachineFault>
        ensures { result ≡ self.now.fault }
    {
        self.fault
    }

    /// How many collectives it has finished, up to `GREATEST_CLOCK` of `limits`.
    pub fn finished(&self) -> u32
        ensures { result ≡ self.now.store.finished }
    {
        self.store.finished()
    }

    /// How many parts of the collective that stands are done, 0 if none stands.
    pub fn done(&self) -> u16
        ensures { result ≡ self.now.store.done }
    {
        self.store.done()
    }

    /// What it has gathered of the reduce that stands.
    pub fn gathered(&self) -> &[i64]
        ensures { result.now ≡ self.now.store.gathered }
    {
        self.store.gathered()
    }

    /// Source, tag and number of items of the last message.
    pub fn status(&self) -> Status
        ensures source { result.source ≡ self.now.store.source }
        ensures tag { result.tag ≡ self.now.store.tag }
        ensures count { result.count ≡ self.now.store.count }
    {
        self.store.status()
    }

    /// The values of its variables, in the order of declaration.
    pub fn variables(&self) -> &[i64]
        ensures { result.now ≡ self.now.store.variables }
    {
        self.store.variables()
    }

    /// Its arrays, in the order of declaration.
    pub fn arrays(&self) -> &[Items]
        ensures { result.now ≡ self.now.store.arrays }
    {
        self.store.arrays()
    }

    /// A law, for proofs alone: position, status, fault and number of collectives are within their
    /// limits, its arrays are as long as its program says, and it is within the collective that
    /// stands.
    pub fn law_whole(&self)
        ensures { IsMachine self.now }
    {
        let _position = self.position;
    }
}
