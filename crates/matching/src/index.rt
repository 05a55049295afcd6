//! The places at which each label's packets wait.
ghost use Rattle.std.specs.Prelude.{◌≡◌, ℕ, ◌≤◌, ◌&&◌, ◌||◌, ◌==◌, not, true, false, None, IfSome, OnOk, OnErr};
ghost use Rattle.matching.specs.declared.label.Label.{Label};
ghost use Rattle.matching.specs.Label.{names, labels};
ghost use Rattle.matching.specs.Index.{has};

use crate::label::Label;
use crate::packet::Packet;
use crate::selector::Selector;
use limits::Heap;
use std::alloc::AllocError;
use std::collections::BTreeSet;

/// For each label the places of the packets that it names.
#[derive(Drop)]
pub(crate) struct Index {
    places: BTreeSet<(Label, u64), Heap>,
}

impl Index {
    pub(crate) fn new(alloc: Heap) -> Index
        ensures { (label : Label) (place : ℕ) → has result.places label place ≡ false }
    {
        Index {
            places: BTreeSet::new(alloc),
        }
    }

    /// Adds a packet at a place of its own.
    pub(crate) fn add(&mut self, packet: &Packet, place: u64) -> Result<(), AllocError>
        requires free { (label : Label) → has self.old.places label place ≡ false }
        ensures ok { OnOk result ((label : Label) (p : ℕ)
            → has self.new.places label p ≡ (has self.old.places label p || (place == p && names label packet.now))) }
        ensures err { OnErr result ((label : Label) (p : ℕ) → has self.new.places label p ≡ has self.old.places label p) }
    {
        for label in labels_of(packet) {
            if let Err(_refused) = self.places.insert((label, place)) {
                self.remove(packet, place);
                return Err(AllocError);
            }
        }
        Ok(())
    }

    /// Removes a packet from its place.
    pub(crate) fn remove(&mut self, packet: &Packet, place: u64)
        ensures { (label : Label) (p : ℕ)
            → has self.new.places label p ≡ (has self.old.places label p && not (place == p && names label packet.now)) }
    {
        for label in labels_of(packet) {
            self.places.remove(&(label, place));
        }
    }

    /// The first place of a packet that the label names.
    pub(crate) fn first(&self, label: Label) -> Option<u64>
        ensures none { result ≡ None → (p : ℕ) → has self.now.places label p ≡ false }
        ensures there { IfSome result (λ place. has self.now.places label place ≡ true) }
        ensures least { IfSome result (λ place. (p : ℕ) → has self.now.places label p ≡ true → place ≤ p) }
    {
        let (found, place) = self.places.range((label, 0)..).next()?;
        if *found == label { Some(*place) } else { None }
    }
}

// All labels that name the packet.
fn labels_of(packet: &Packet) -> [Label; 5]
    ensures { result ≡ labels packet.now }
{
    let context = packet.context;
    let selected = |source, tag| {
        Label::Selected(Selector {
            context,
            source,
            tag,
        })
    };
    [
        selected(Some(packet.source), Some(packet.tag)),
        selected(Some(packet.source), None),
        selected(None, Some(packet.tag)),
        selected(None, None),
        Label::Sent {
            source: packet.source,
            clock: packet.clock,
        },
    ]
}
