//! What of a rank waits at its gate, which commits output: determinants for
//! their store and acknowledgment, sends and lines for the determinants before
//! them.
ghost use Rattle.std.specs.Prelude.{◌≡◌, ◌+◌, ◌-◌, ◌<◌, true, [], ◌∷◌, ◌++◌, length, take, drop, slice_get, option_and_then};
ghost use Rattle.std.specs.Prelude.{IsTrue, IsSome, ◌↔◌, OnOk, OnErr};
ghost use Rattle.std.specs.Bool.{OnTrue, OnFalse};
ghost use Rattle.limits.specs.Limits.{greatest_clock};
ghost use Rattle.rank_node.specs.declared.waiting.Waiting.TheVariants as waits;

mod copying;

use crate::waiting::Waiting;
use event_logger::Event;
use limits::{Heap, MOST_EFFECTS};
use std::alloc::AllocError;
use std::collections::VecDeque;
use std::marker::Model;

/// The events of a rank that aren't acknowledged and its effects that aren't
/// released, in the order of their clocks.
#[derive(Drop)]
pub(crate) struct Pending {
    waiting: VecDeque<Waiting, Heap>,
    // so many of the first are events that are stored
    stored: usize,
    // so many are effects
    effect_count: usize,
}

impl Model for Pending {
    ghost use Rattle.std.specs.Prelude.{◌≡◌, ◌≤◌};
    ghost use Rattle.limits.specs.Limits.{most_effects};
    ghost use Rattle.rank_node.specs.Waiting.{Gate, BeginsWithEvents, effects};

    ghost Value = { Gate };

    ghost view = { λ p. record { waiting = p.waiting.items; stored = p.stored } };

    ghost invariant = { λ p. BeginsWithEvents p.stored p.waiting.items × (p.effect_count ≡ effects p.waiting.items) × (p.effect_count ≤ most_effects) };
}

impl Pending {
    ghost use Rattle.rank_node.specs.Waiting.{AreMade, is_settled, has_room, event_in, joins, misses_only, with_joined};
    ghost use Rattle.rank_node.specs.Releasing.{effect_of};

    /// Nothing waits.
    pub fn new(alloc: Heap) -> Pending
        ensures { result ≡ record { waiting = []; stored = 0 } }
    {
        Pending {
            waiting: VecDeque::new(alloc),
            stored: 0,
            effect_count: 0,
        }
    }

    /// Whether nothing waits.
    pub fn is_settled(&self) -> bool
        ensures { result ≡ is_settled self.now.waiting }
    {
        self.waiting.is_empty()
    }

    /// Whether one send or line more may wait.
    pub fn has_room(&self) -> bool
        ensures { result ≡ has_room self.now.waiting }
    {
        self.effect_count < MOST_EFFECTS
    }

    /// An event goes last. An `Err` means out of memory.
    #[tactic(auto, using(crate::proofs::Gates::effects_push, crate::proofs::Gates::begins_push))]
    #[inline(always)]
    pub fn push_event(&mut self, event: Event) -> Result<(), AllocError>
        ensures ok { OnOk result (self.new ≡ record { waiting = self.old.waiting ++ waits.Event event ∷ []; stored = self.old.stored }) }
        ensures err { OnErr result (self.new ≡ self.old) }
    {
        self.waiting.reserve(1)?;
        self.waiting.push_back_reserved(Waiting::Event(event));
        Ok(())
    }

    /// Whether a miss joins what waits last: a miss or a run of misses that
    /// isn't stored.
    #[tactic(auto, using(crate::proofs::Joining::joins_stored, crate::proofs::Joining::joins_last))]
    pub fn joins(&self) -> bool
        ensures { result ≡ joins self.now.stored self.now.waiting }
    {
        if self.stored >= self.waiting.len() {
            return false;
        }
        match self.waiting.back() {
            Some(Waiting::Event(event)) => event.finds_none(),
            Some(Waiting::Send { .. } | Waiting::Line { .. }) | None => false,
        }
    }

    /// The miss or run of misses that waits last and isn't stored is one miss
    /// longer. Answers whether there is one. It takes no memory.
    #[tactic(auto, using(crate::proofs::Joining::joins_stored, crate::proofs::Joining::joins_last, crate::proofs::Joining::made_last, crate::proofs::Joining::joined_last, crate::proofs::Joining::joined_effects, crate::proofs::Joining::joined_begins))]
    pub fn join(&mut self) -> bool
        requires { AreMade (greatest_clock - 1) self.old.waiting }
        ensures value { result ≡ joins self.old.stored self.old.waiting }
        ensures joined { OnTrue result (self.new ≡ record { waiting = with_joined self.old.waiting; stored = self.old.stored }) }
        ensures none { OnFalse result (self.new ≡ self.old) }
    {
        if self.stored >= self.waiting.len() {
            return false;
        }
        let last = match self.waiting.back() {
            Some(Waiting::Event(event)) => *event,
            Some(Waiting::Send { .. } | Waiting::Line { .. }) | None => return false,
        };
        if !last.finds_none() {
            return false;
        }
        let place = self.waiting.len() - 1;
        self.waiting[place] = Waiting::Event(last.joined());
        true
    }

    /// Whether just one miss or run of misses waits, and isn't stored.
    #[tactic(auto, using(crate::proofs::Joining::only_misses))]
    pub fn misses_only(&self) -> bool
        ensures { result ≡ misses_only self.now.stored self.now.waiting }
    {
        self.waiting.len() == 1 && self.joins()
    }

    /// A send to a rank goes last, if there is room. An `Err` means out of
    /// memory.
    #[tactic(auto, using(crate::proofs::Gates::effects_push, crate::proofs::Gates::begins_push, crate::proofs::Gates::begins_within))]
    pub fn push_send(&mut self, dest: u8, clock: u32) -> Result<(), AllocError>
        requires { has_room self.old.waiting ≡ true }
        ensures ok { OnOk result (self.new ≡ record { waiting = self.old.waiting ++ waits.Send dest clock ∷ []; stored = self.old.stored }) }
        ensures newest { OnOk result (self.new.stored < length self.new.waiting) }
        ensures err { OnErr result (self.new ≡ self.old) }
    {
        self.waiting.push_back(Waiting::Send { dest, clock })?;
        self.effect_count += 1;
        Ok(())
    }

    /// A line goes last, if there is room. An `Err` means out of memory.
    #[tactic(auto, using(crate::proofs::Gates::effects_push, crate::proofs::Gates::begins_push))]
    pub fn push_line(&mut self, clock: u32, value: i64) -> Result<(), AllocError>
        requires { has_room self.old.waiting ≡ true }
        ensures ok { OnOk result (self.new ≡ record { waiting = self.old.waiting ++ waits.Line clock value ∷ []; stored = self.old.stored }) }
        ensures err { OnErr result (self.new ≡ self.old) }
    {
        self.waiting.push_back(Waiting::Line { clock, value })?;
        self.effect_count += 1;
        Ok(())
    }

    /// The newest, which isn't stored, waits no more.
    #[tactic(auto, using(crate::proofs::Gates::effects_push, crate::proofs::Gates::begins_withdraw))]
    pub fn withdraw(&mut self)
        requires { self.old.stored < length self.old.waiting }
        ensures withdrawn { self.new ≡ record { waiting = take (length self.old.waiting - 1) self.old.waiting; stored = self.old.stored } }
    {
        if let Some(Waiting::Send { .. } | Waiting::Line { .. }) = self.waiting.pop_back() {
            self.effect_count -= 1;
        }
    }

    /// What waits behind so many others, the oldest first.
    pub fn get(&self, index: usize) -> Option<Waiting>
        ensures { result ≡ slice_get self.now.waiting index }
    {
        self.waiting.get(index).copied()
    }

    /// So many of the first are events that are stored.
    pub fn stored(&self) -> usize
        ensures { result ≡ self.now.stored }
    {
        self.stored
    }

    /// The oldest event that isn't stored, if no effect stands before it.
    pub fn oldest_unstored(&self) -> Option<Event>
        ensures { result ≡ option_and_then event_in (slice_get self.now.waiting self.now.stored) }
    {
        match self.waiting.get(self.stored) {
            Some(Waiting::Event(event)) => Some(*event),
            Some(Waiting::Send { .. } | Waiting::Line { .. }) | None => None,
        }
    }

    /// The oldest event that isn't stored is.
    #[tactic(auto, using(crate::proofs::Gates::begins_more))]
    pub fn mark_stored(&mut self)
        requires { IsSome (option_and_then event_in (slice_get self.old.waiting self.old.stored)) }
        ensures marked { self.new ≡ record { waiting = self.old.waiting; stored = self.old.stored + 1 } }
    {
        self.stored += 1;
    }

    /// The oldest stored event is acknowledged, if there is one: it waits no
    /// more.
    pub fn acknowledge(&mut self) -> bool
        ensures some { IsTrue result ↔ (0 < self.old.stored) }
        ensures acked { OnTrue result (self.new ≡ record { waiting = drop 1 self.old.waiting; stored = self.old.stored - 1 }) }
        ensures first { OnTrue result (IsSome (option_and_then event_in (slice_get self.old.waiting 0))) }
        ensures none { OnFalse result (self.new ≡ self.old) }
    {
        if self.stored == 0 {
            return false;
        }
        self.stored -= 1;
        self.waiting.pop_front().is_some()
    }

    /// The oldest of what waits, if that is an effect.
    pub fn oldest_effect(&self) -> Option<Waiting>
        ensures { result ≡ option_and_then effect_of (slice_get self.now.waiting 0) }
    {
        match self.waiting.front() {
            Some(Waiting::Event(_)) | None => None,
            Some(effect) => Some(*effect),
        }
    }

    /// The oldest effect waits no more.
    pub fn release(&mut self)
        requires { IsSome (option_and_then effect_of (slice_get self.old.waiting 0)) }
        ensures released { self.new ≡ record { waiting = drop 1 self.old.waiting; stored = self.old.stored } }
    {
        self.waiting.pop_front();
        self.effect_count -= 1;
    }
}
