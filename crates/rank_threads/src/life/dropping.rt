//! The frames that a crash loses.
ghost use Rattle.std.specs.Prelude.{◌≡◌, ◌≢◌, ◌+◌};
ghost use Rattle.rank_threads.specs.Dropping.{DroppedBelow, DroppedFrom, OnlyDrops};

use super::station::Station;
use crate::lanes_of::{LanesSeen, sees_frame, take_from};
use limits::MOST_FRAMES;

/// At a crash the frames in the lanes into the rank are dropped, at most as
/// many as they hold. They count as taken. Each lane is looked at.
#[tactic(auto, using(crate::proofs::DroppingLemmas::dropped_next))]
pub fn drop_frames(station: &mut Station<'_>) -> LanesSeen
    ensures looked { result.below ≡ station.old.size }
    ensures dropped { DroppedBelow station.old.size station.old station.new }
    ensures only { OnlyDrops station.old station.new }
{
    let mut looked = LanesSeen::none();
    for source in 0..station.size {
        drop_from(station, source, &mut looked);
    }
    looked
}

#[tactic(auto, using(crate::proofs::DroppingLemmas::dropped_nothing, crate::proofs::DroppingLemmas::dropped_more, crate::proofs::LookLemmas::look_laws))]
fn drop_from(station: &mut Station<'_>, source: u8, looked: &mut LanesSeen)
    requires { looked.old.below ≡ source }
    ensures looked { looked.new.below ≡ source + 1 }
    ensures dropped { DroppedFrom source station.old station.new }
    ensures only { OnlyDrops station.old station.new }
{
    for _ in 0..MOST_FRAMES {
        if !drop_one(station, source, looked) {
            break;
        }
    }
}

// The next frame from this rank is dropped, where there is one.
#[tactic(auto, using(crate::proofs::DroppingLemmas::dropped_none, crate::proofs::DroppingLemmas::dropped_unseen))]
fn drop_one(station: &mut Station<'_>, source: u8, looked: &mut LanesSeen) -> bool
    ensures next { looked.old.below ≡ source → looked.new.below ≡ source + 1 }
    ensures others { looked.old.below ≢ source → looked.new.below ≡ looked.old.below }
    ensures dropped { DroppedFrom source station.old station.new }
    ensures only { OnlyDrops station.old station.new }
{
    if !sees_frame(&mut station.kit.from, source, looked) {
        return false;
    }
    let Some(_) = take_from(&mut station.kit.from, source) else {
        return false;
    };
    station.kit.tally.count_taken();
    station.kit.meter.count_dropped();
    true
}
