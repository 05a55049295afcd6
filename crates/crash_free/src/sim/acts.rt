//! The steps and acts of one rank.
ghost use Rattle.std.specs.Prelude.{◌≡◌, ◌<◌, ◌≤◌, IfErr, OnOk, OnErr, length};
ghost use Rattle.matching.specs.PacketValue.{least_items, most_items, greatest_tag};
ghost use Rattle.rank_machine.specs.Wants.{IsLegal};
ghost use Rattle.crash_free.specs.Sim.{Allows, Refuses};
ghost use Rattle.crash_free.specs.Inside.{GoesInside};
ghost use Rattle.crash_free.specs.Wanted.{WantsAt, ProbesAt, TriesAt, StandsAtAct};

use crate::act::Passed;
use crate::choice::Choice;
use crate::not_allowed::NotAllowed;
use crate::sim::Sim;
use matching::{Context, Packet, PacketItems, Selector};
use rank_machine::Want;
use rank_machine::laws::{
    law_makes_its_miss, law_makes_its_print, law_makes_its_send, law_wants_of_its_state,
};
use std::alloc::AllocError;

impl Sim<'_> {
    pub(super) fn go_on(&mut self, rank: u8)
        requires there { rank < length self.old.machines }
        requires wanted { WantsAt self.old.machines rank Want.Internal }
        ensures allowed { Allows self.old rank Choice.Next self.new }
    {
        let machine = &mut self.machines[usize::from(rank)];
        machine.internal();
    }

    pub(super) fn advance(&mut self, rank: u8, most: u32) -> u32
        requires there { rank < length self.old.machines }
        ensures few { result ≤ most }
        ensures inside { GoesInside self.old rank result self.new }
        ensures stops { result < most → StandsAtAct self.new.machines rank }
    {
        let machine = &mut self.machines[usize::from(rank)];
        let made = machine.advance(most);
        law_wants_of_its_state(machine);
        made
    }

    pub(super) fn print(&mut self, rank: u8, value: i64) -> Result<(), AllocError>
        requires there { rank < length self.old.machines }
        requires wanted { WantsAt self.old.machines rank (Want.Print value) }
        ensures ok { OnOk result (Allows self.old rank Choice.Next self.new) }
        ensures err { OnErr result (self.new ≡ self.old) }
    {
        self.passed.reserve(1)?;
        self.lines.push(rank, value)?;
        let machine = &mut self.machines[usize::from(rank)];
        law_makes_its_print(machine);
        machine.did_print();
        self.passed.push_reserved(Passed::prints(rank, value));
        Ok(())
    }

    pub(super) fn send(
        &mut self,
        rank: u8,
        dest: u8,
        context: Context,
        tag: u16,
    ) -> Result<(), AllocError>
        requires there { rank < length self.old.machines }
        requires wanted { WantsAt self.old.machines rank (Want.Send dest context tag) }
        requires legal { IsLegal (length self.old.machines) (Want.Send dest context tag) }
        ensures ok { OnOk result (Allows self.old rank Choice.Next self.new) }
        ensures err { OnErr result (self.new ≡ self.old) }
    {
        self.passed.reserve(1)?;
        let machine = &mut self.machines[usize::from(rank)];
        let payload = machine.payload(self.alloc)?;
        // the run keeps the items for good, the packet until it is taken
        let items = PacketItems::from_slice(self.alloc, payload.as_slice())?;
        let packet = packet(rank, context, tag, payload);
        self.mail.post(rank, dest, packet)?;
        law_makes_its_send(machine);
        machine.did_send();
        let act = Passed::sends(rank, dest, context, tag, items);
        self.passed.push_reserved(act);
        Ok(())
    }

    pub(super) fn receive(
        &mut self,
        rank: u8,
        selector: &Selector,
        source: u32,
        index: u64,
    ) -> Result<(), NotAllowed>
        requires there { rank < length self.old.machines }
        requires wanted { WantsAt self.old.machines rank (Want.Receive selector.now) }
        ensures ok { OnOk result (Allows self.old rank (Choice.Take source index) self.new) }
        ensures refused { IfErr result (λ why. Refuses self.old rank (Choice.Take source index) why) }
        ensures err { OnErr result (self.new ≡ self.old) }
    {
        let ranks = self.ranks();
        let Some((source, place)) = self.mail.find(ranks, rank, selector, source, index) else {
            return Err(NotAllowed::NotEligible);
        };
        if self.passed.reserve(1).is_err() {
            return Err(NotAllowed::Memory);
        }
        let Ok(packet) = self.mail.take(source, rank, place) else {
            return Err(NotAllowed::Memory);
        };
        let machine = &mut self.machines[usize::from(rank)];
        machine.give(packet);
        self.passed
            .push_reserved(Passed::takes(rank, source, index));
        Ok(())
    }

    // The message stays, so that a later act may take it.
    pub(super) fn hit(
        &mut self,
        rank: u8,
        selector: &Selector,
        source: u32,
        index: u64,
    ) -> Result<(), NotAllowed>
        requires there { rank < length self.old.machines }
        requires wanted { ProbesAt self.old.machines rank selector.now }
        ensures ok { OnOk result (Allows self.old rank (Choice.Take source index) self.new) }
        ensures refused { IfErr result (λ why. Refuses self.old rank (Choice.Take source index) why) }
        ensures err { OnErr result (self.new ≡ self.old) }
    {
        let ranks = self.ranks();
        let Some((source, place)) = self.mail.find(ranks, rank, selector, source, index) else {
            return Err(NotAllowed::NotEligible);
        };
        if self.passed.reserve(1).is_err() {
            return Err(NotAllowed::Memory);
        }
        let packet = self.mail.look(source, rank, place);
        let machine = &mut self.machines[usize::from(rank)];
        machine.show(packet);
        self.passed.push_reserved(Passed::hits(rank, source, index));
        Ok(())
    }

    pub(super) fn miss(&mut self, rank: u8) -> Result<(), AllocError>
        requires there { rank < length self.old.machines }
        requires wanted { TriesAt self.old.machines rank }
        ensures ok { OnOk result (Allows self.old rank Choice.Miss self.new) }
        ensures err { OnErr result (self.new ≡ self.old) }
    {
        self.passed.reserve(1)?;
        let machine = &mut self.machines[usize::from(rank)];
        law_makes_its_miss(machine);
        machine.miss();
        self.passed.push_reserved(Passed::misses(rank));
        Ok(())
    }
}

// What nothing looks at, clock and number, is 1.
fn packet(source: u8, context: Context, tag: u16, payload: PacketItems) -> Packet
    requires tag { tag ≤ greatest_tag context }
    requires least { least_items context ≤ length payload.items }
    requires most { length payload.items ≤ most_items context }
    ensures { result ≡ record { source = source; clock = 1; number = 1; context = context; tag = tag; items = payload.items } }
{
    Packet {
        source,
        clock: 1,
        number: 1,
        context,
        tag,
        payload,
    }
}
