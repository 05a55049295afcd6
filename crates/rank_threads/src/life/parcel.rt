//! A station on its way into a thread or back.
ghost use Rattle.std.specs.Prelude.{◌≡◌};
ghost use Rattle.rank_threads.specs.Keeping.{HasLived, WasKept};
ghost use Rattle.rank_threads.specs.Stations.{SameStation};

use super::station::Station;
use rank_language::Program;
use std::snapshot::Snapshot;
use std::sync::Wait;
use std::thread::Promise;

/// A station on its way into a thread or back. What a thread captures and gives
/// back has to be `Drop`, and a station is not, so a drop of a parcel never
/// returns. No code drops one: it is always opened.
pub struct Parcel<'p, W: Wait + Drop> {
    pub rt: W,
    pub station: Station<'p>,
}

impl<'p, W: Wait + Drop> Parcel<'p, W> {
    pub fn open(self) -> Station<'p>
        ensures { result ≡ self.entry.station }
    {
        let Parcel { rt: _, station } = self;
        station
    }
}

impl<W: Wait + Drop> Drop for Parcel<'_, W> {
    fn drop(self) {
        for _ in self.rt.forever() {}
        unreachable!()
    }
}

/// The station that comes back is the one that went in, after lives of this program.
#[derive(Drop)]
pub struct AfterLives<'p, 's>(pub Snapshot<Station<'p>>, pub Snapshot<&'s Program>);

impl<'p, 's, W: Wait + Drop> Promise<Parcel<'p, W>> for AfterLives<'p, 's> {
    ghost kept_by = { λ p r. WasKept p.1.value.now p.0.value r.station };
}

/// The station that comes back is the one that went in, after one life of this program.
#[derive(Drop)]
pub struct AfterLife<'p, 's>(pub Snapshot<Station<'p>>, pub Snapshot<&'s Program>);

impl<'p, 's, W: Wait + Drop> Promise<Parcel<'p, W>> for AfterLife<'p, 's> {
    ghost kept_by = { λ p r. SameStation p.0.value r.station × HasLived p.1.value.now p.0.value r.station };
}
