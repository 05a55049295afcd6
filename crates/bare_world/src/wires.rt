//! The wires between all ranks.
ghost use Rattle.std.specs.Prelude.{◌≡◌, ◌<◌, [], ◌∷◌, ◌++◌, length, replicate, slice_set, slice_index_or, IfOk, OnOk, OnErr};
ghost use Rattle.bare_world.specs.Wires.{HasWire, wire_of, with_frame};

use crate::wire::Wire;
use limits::Heap;
use rank_node::Frame;
use std::alloc::AllocError;
use std::marker::Model;

/// The wires from one rank to each.
#[derive(Drop)]
pub struct WiresFrom {
    wires: Vec<Wire, Heap>,
}

impl Model for WiresFrom {
    ghost use Rattle.std.specs.Prelude.{List};
    ghost use Rattle.rank_node.specs.declared.frame.Frame.{Frame};

    ghost Value = { List (List Frame) };

    ghost view = { λ w. w.wires.items };
}

impl Clone for WiresFrom {
    ghost is_clone = { λ wires clone. clone ≡ wires };

    fn clone(&self) -> Result<WiresFrom, AllocError> {
        let alloc = *self.wires.allocator();
        Ok(WiresFrom {
            wires: self.wires.as_slice().to_vec(alloc)?,
        })
    }
}

impl WiresFrom {
    fn new(alloc: Heap, ranks: usize) -> Result<WiresFrom, AllocError>
        ensures { IfOk result (λ wires. wires ≡ replicate ranks []) }
    {
        let mut wires = Vec::with_capacity(alloc, ranks)?;
        for _ in 0..ranks {
            wires.push(Wire::new(alloc))?;
        }
        Ok(WiresFrom { wires })
    }

    fn to(&self, dest: u8) -> &Wire
        requires { dest < length self.now }
        ensures { result.now ≡ slice_index_or self.now dest [] }
    {
        &self.wires[usize::from(dest)]
    }

    #[tactic(auto, using(crate::proofs::Lists::Replaced::set_same))]
    fn put(&mut self, dest: u8, frame: Frame) -> Result<(), AllocError>
        requires { dest < length self.old }
        ensures ok { OnOk result (self.new ≡ slice_set self.old dest (slice_index_or self.old dest [] ++ frame ∷ [])) }
        ensures err { OnErr result (self.new ≡ self.old) }
    {
        self.wires[usize::from(dest)].put(frame)
    }
}

/// A wire from each rank to each. A call goes to the wires of its source, and from
/// there to that of its destination; contracts see lists of lists.
#[derive(Drop)]
pub struct Wires {
    from: Vec<WiresFrom, Heap>,
}

impl Model for Wires {
    ghost use Rattle.std.specs.Prelude.{List};
    ghost use Rattle.bare_world.specs.Wires.{AllWires};

    ghost Value = { AllWires };

    ghost view = { λ w. w.from.items };
}

impl Wires {
    /// Wires on which nothing was put.
    pub fn new(alloc: Heap, ranks: usize) -> Result<Wires, AllocError>
        ensures { IfOk result (λ wires. wires ≡ replicate ranks (replicate ranks [])) }
    {
        let mut from = Vec::with_capacity(alloc, ranks)?;
        for _ in 0..ranks {
            from.push(WiresFrom::new(alloc, ranks)?)?;
        }
        Ok(Wires { from })
    }

    /// The same wires, in memory of their own. An `Err` means out of memory.
    pub fn copy(&self, alloc: Heap) -> Result<Wires, AllocError>
        ensures { IfOk result (λ copy. copy ≡ self.now) }
    {
        Ok(Wires {
            from: self.from.as_slice().to_vec(alloc)?,
        })
    }

    /// The wire from one rank to another.
    pub fn wire(&self, source: u8, dest: u8) -> &Wire
        requires { HasWire self.now source dest }
        ensures { result.now ≡ wire_of self.now source dest }
    {
        self.from[usize::from(source)].to(dest)
    }

    /// A frame is put on the wire from one rank to another. An `Err` is want
    /// of memory.
    #[tactic(auto, using(crate::proofs::Lists::Replaced::set_same))]
    pub fn put(&mut self, source: u8, dest: u8, frame: Frame) -> Result<(), AllocError>
        requires { HasWire self.old source dest }
        ensures ok { OnOk result (self.new ≡ with_frame self.old source dest frame) }
        ensures err { OnErr result (self.new ≡ self.old) }
    {
        self.from[usize::from(source)].put(dest, frame)
    }
}
