//! A wire, an unreliable channel: it keeps every frame ever put on it, and each
//! may arrive in any order, often or never.
ghost use Rattle.std.specs.Prelude.{◌≡◌, [], ◌∷◌, ◌++◌, None, Some, length, slice_get, MatchOption, OnOk, OnErr};

use limits::Heap;
use rank_node::Frame;
use std::alloc::AllocError;
use std::marker::Model;

/// The frames that were put on the way from one rank to another, oldest first:
/// a vector to which frames are added, and from which none is taken.
#[derive(Drop)]
pub struct Wire {
    frames: Vec<Frame, Heap>,
}

impl Model for Wire {
    ghost use Rattle.std.specs.Prelude.{List};
    ghost use Rattle.rank_node.specs.declared.frame.Frame.{Frame};

    ghost Value = { List Frame };

    ghost view = { λ w. w.frames.items };
}

// Wires are copied by the calls of `std`.
impl Clone for Wire {
    ghost is_clone = { λ wire clone. clone ≡ wire };

    fn clone(&self) -> Result<Wire, AllocError> {
        let alloc = *self.frames.allocator();
        Ok(Wire {
            frames: self.frames.as_slice().to_vec(alloc)?,
        })
    }
}

impl Wire {
    /// A wire on which nothing was put.
    pub fn new(alloc: Heap) -> Wire
        ensures { result ≡ [] }
    {
        Wire {
            frames: Vec::new(alloc),
        }
    }

    /// How many frames were put.
    pub fn len(&self) -> usize
        ensures { result ≡ length self.now }
    {
        self.frames.len()
    }

    /// All of them.
    pub fn frames(&self) -> &[Frame]
        ensures { result.now ≡ self.now }
    {
        self.frames.as_slice()
    }

    /// The frame of this index, from 0, if there is one.
    pub fn get(&self, index: usize) -> Option<&Frame>
        ensures { MatchOption result (slice_get self.now index ≡ None) (λ frame. slice_get self.now index ≡ Some frame.now) }
    {
        self.frames.get(index)
    }

    /// A frame is put. An `Err` means out of memory.
    pub fn put(&mut self, frame: Frame) -> Result<(), AllocError>
        ensures ok { OnOk result (self.new ≡ self.old ++ frame ∷ []) }
        ensures err { OnErr result (self.new ≡ self.old) }
    {
        self.frames.push(frame)?;
        Ok(())
    }
}
