//! Who stands at a seat; nobody while the rank goes from one phase to another.
ghost use Rattle.std.specs.Prelude.{◌≡◌, Some, None, IsSome};

use checkpoint::MemoryShelf;
use rank_node::Phase;

/// A rank of a world, with a shelf in memory and without a desk; `None` where
/// nobody stands at the seat.
pub type Occupant<'p> = Option<Phase<'p, MemoryShelf, ()>>;

/// The rank, which leaves its seat.
pub fn take<'p>(occupant: &mut Occupant<'p>) -> Phase<'p, MemoryShelf, ()>
    requires { IsSome occupant.old }
    ensures rank { occupant.old ≡ Some result }
    ensures empty { occupant.new ≡ None }
{
    match occupant.take() {
        Some(rank) => rank,
        None => unreachable!(),
    }
}

/// Puts a rank at the seat. Who stood there ends.
pub fn put<'p>(occupant: &mut Occupant<'p>, rank: Phase<'p, MemoryShelf, ()>)
    ensures { occupant.new ≡ Some rank.entry }
{
    end(occupant.replace(rank));
}

/// Who stands at the seat ends.
pub fn end(occupant: Occupant<'_>) {
    if let Some(rank) = occupant {
        rank.retire().parts();
    }
}
