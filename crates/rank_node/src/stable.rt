//! What of a rank outlives a crash: its handles on stable storage, and its
//! place.
ghost use Rattle.std.specs.Prelude.{◌≡◌, ◌<◌, ◌≤◌, Some, IfOk, IsErrOf, OnOk, OnErr};
ghost use Rattle.limits.specs.Limits.{most_ranks};
ghost use Rattle.checkpoint.specs.Shelf.{Grew, image_bytes};

use checkpoint::{Shelf, ShelfFault};
use limits::Heap;
use std::marker::Model;

/// A rank's desk at the logger, its shelf, and which of how many ranks it is.
///
/// There are at most `MOST_RANKS` of `limits`. The value must be spent.
// Calls on the shelf leave all else, as their clause `same` says.
pub struct Stable<S: Shelf, D> {
    pub(crate) desk: D,
    shelf: S,
    rank: u8,
    size: u8,
}

impl<S: Shelf, D> Model for Stable<S, D> {
    ghost use Rattle.std.specs.Prelude.{◌<◌, ◌≤◌};
    ghost use Rattle.limits.specs.Limits.{most_ranks};
    ghost use Rattle.rank_node.specs.Stored.{Stored};

    ghost Value = { Stored S D };

    ghost view = { λ s. record { desk = s.desk; shelf = s.shelf; rank = s.rank; size = s.size } };

    ghost invariant = { λ s. (s.rank < s.size) × (s.size ≤ most_ranks) };
}

impl<S: Shelf, D> Stable<S, D> {
    ghost use Rattle.rank_node.specs.Copied.{stored_with};
    ghost use Rattle.rank_node.specs.Image.{with_shelf};

    /// What outlives the crashes of this rank.
    pub fn new(desk: D, shelf: S, rank: u8, size: u8) -> Self
        requires rank { rank < size }
        requires size { size ≤ most_ranks }
        ensures { result ≡ record { desk = desk; shelf = shelf; rank = rank; size = size } }
    {
        Stable {
            desk,
            shelf,
            rank,
            size,
        }
    }

    /// Ends the rank, and gives its desk and its shelf.
    pub fn parts(self) -> (D, S)
        ensures { result ≡ (self.desk, self.shelf) }
    {
        let Stable {
            desk,
            shelf,
            rank: _,
            size: _,
        } = self;
        (desk, shelf)
    }

    pub(crate) fn shelf(&self) -> &S
        ensures { result.now ≡ self.now.shelf }
    {
        &self.shelf
    }

    // The same rank, with this desk and this shelf.
    pub(crate) fn with(&self, desk: D, shelf: S) -> Stable<S, D>
        ensures { result ≡ stored_with self.now desk shelf }
    {
        Stable {
            desk,
            shelf,
            rank: self.rank,
            size: self.size,
        }
    }

    pub(crate) fn rank(&self) -> u8
        ensures value { result ≡ self.now.rank }
        ensures below { result < self.now.size }
    {
        self.rank
    }

    pub(crate) fn size(&self) -> u8
        ensures value { result ≡ self.now.size }
        ensures within { result ≤ most_ranks }
    {
        self.size
    }

    // Puts an image on the shelf, in the place of the last one.
    pub(crate) fn put(&mut self, image: Vec<u8, Heap>) -> Result<(), ShelfFault>
        ensures ok { OnOk result (S.last self.new.shelf ≡ Some image.items) }
        ensures err { OnErr result (S.last self.new.shelf ≡ S.last self.old.shelf) }
        ensures memory { IsErrOf result ShelfFault.Memory → self.new ≡ self.old }
        ensures device { IsErrOf result ShelfFault.Device → Grew (S.failures self.old.shelf) (S.failures self.new.shelf) }
        ensures same { self.new ≡ with_shelf self.old self.new.shelf }
    {
        self.shelf.put(image)
    }

    // The last image on the shelf, in memory of its own.
    pub(crate) fn get(&mut self) -> Result<Option<Vec<u8, Heap>>, ShelfFault>
        ensures ok { IfOk result (λ image. image_bytes image ≡ S.last self.old.shelf) }
        ensures stays { S.last self.new.shelf ≡ S.last self.old.shelf }
        ensures device { IsErrOf result ShelfFault.Device → Grew (S.failures self.old.shelf) (S.failures self.new.shelf) }
        ensures same { self.new ≡ with_shelf self.old self.new.shelf }
    {
        self.shelf.get()
    }
}
