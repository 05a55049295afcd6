//! Events that are stored.
ghost use Rattle.std.specs.Prelude.{◌≡◌, ◌+◌, ◌<◌, false, length, Some, IfOk, OnErr};

use crate::bare_world::BareWorld;
use crate::reply::Reply;
use crash_free::{Act, Passed};
use event_logger::{Event, Kind};
use std::alloc::AllocError;

impl<'p> BareWorld<'p> {
    ghost use Rattle.crash_free.specs.Seen.{act_of};
    ghost use Rattle.crash_free.specs.Runs.{history, sent, looked_up};
    ghost use Rattle.rank_node.specs.Storing.{next_unstored};
    ghost use Rattle.bare_world.specs.declared.event.WorldEvent.TheVariants.{Store};
    ghost use Rattle.bare_world.specs.Follows.{CanNot, Follows};
    ghost use Rattle.bare_world.specs.Rows.{event_at};
    ghost use Rattle.bare_world.specs.RunIndex.{clock_at};
    ghost use Rattle.event_logger.specs.Sequential.Event.{finds_none};
    ghost use Rattle.bare_world.specs.Seats.{AtRank, NotedAs, with_run};
    ghost use Rattle.bare_world.specs.Stands.{Stands};

    /// The rank's oldest unstored event is stored. Its acts go on the run
    /// first, and are taken back where memory ends after that.
    #[tactic(auto, using(crate::proofs::Calls::Stores::store_laws, crate::proofs::Calls::RankOfEvent::works_at))]
    pub(crate) fn store(&mut self, rank: u32) -> Result<Reply, AllocError>
        requires { Stands self.old }
        ensures follows { IfOk result (λ reply. Follows self.old (Store rank) reply self.new) }
        ensures err { OnErr result (self.new ≡ self.old) }
        ensures possible { OnErr result (CanNot self.old (Store rank) → ⊥) }
    {
        let Some(rank) = self.rank_of(rank) else {
            return Ok(Reply::Refused);
        };
        let Some(running) = self.seats.running(rank) else {
            return Ok(Reply::Refused);
        };
        let Some(event) = running.oldest_unstored() else {
            return Ok(Reply::Refused);
        };
        let acts = self.note(rank, event)?;
        let Ok(count) = self.seats.store(rank, &mut self.logger) else {
            self.run.take_back_many(acts);
            return Err(AllocError);
        };
        Ok(Reply::Stored(count))
    }

    /// The acts that the rank's oldest unstored event stands for go on the
    /// run, so many. An `Err` means out of memory.
    #[tactic(auto, using(crate::proofs::Calls::Stores::noted_one, crate::proofs::Calls::Stores::noted_misses))]
    fn note(&mut self, rank: u8, event: Event) -> Result<u32, AllocError>
        requires stands { Stands self.old }
        requires rank { rank < length self.old.ranks }
        requires oldest { AtRank self.old.ranks rank (λ v. next_unstored v.rank ≡ Some event) }
        ensures noted { IfOk result (λ count. NotedAs self.old.run rank event count self.new.run) }
        ensures others { self.new ≡ with_run self.old self.new.run }
        ensures err { OnErr result (self.new ≡ self.old) }
    {
        if event.finds_none() {
            let count = event.count();
            self.run.push_misses(rank, count)?;
            return Ok(count);
        }
        let act = self.act_of(rank, event);
        self.run.push(Passed { rank, act })?;
        Ok(1)
    }

    /// The act that the rank's oldest unstored event, which found a message,
    /// stands for.
    #[tactic(auto, using(crate::proofs::Calls::Stores::hit_stands, crate::proofs::Calls::Stores::reception_stands))]
    fn act_of(&self, rank: u8, event: Event) -> Act
        requires stands { Stands self.now }
        requires oldest { AtRank self.now.ranks rank (λ v. next_unstored v.rank ≡ Some event) }
        requires found { finds_none event.kind ≡ false }
        ensures { event_at (length (history self.now.run rank) + 1) (act_of result) (looked_up (λ s. sent self.now.run s rank) (act_of result)) ≡ Some event }
    {
        match event.kind() {
            Kind::Hit => Act::Hits {
                source: event.sender(),
                place: self.place_of(rank, event),
            },
            Kind::Reception => Act::Takes {
                source: event.sender(),
                place: self.place_of(rank, event),
            },
            Kind::Miss | Kind::Misses => unreachable!(),
        }
    }

    /// The place of the message that the rank's oldest unstored event names.
    #[tactic(auto, using(crate::proofs::Calls::Stores::names_a_rank, crate::proofs::Calls::Stores::names_a_message, crate::proofs::Calls::RankOfEvent::at_below))]
    fn place_of(&self, rank: u8, event: Event) -> u64
        requires stands { Stands self.now }
        requires oldest { AtRank self.now.ranks rank (λ v. next_unstored v.rank ≡ Some event) }
        requires named { finds_none event.kind ≡ false }
        ensures { clock_at self.now.run event.sender rank result ≡ Some event.sender_clock }
    {
        let Some(place) = self
            .run
            .place_of(event.sender(), rank, event.sender_clock())
        else {
            unreachable!()
        };
        place
    }
}
