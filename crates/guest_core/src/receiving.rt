//! Packets come to a guest.
ghost use Rattle.std.specs.Prelude.{◌≡◌, ◌≢◌, ◌≤◌, ◌+◌, ℕ, Some, None, IfOk, OnOk, OnErr};
ghost use Rattle.std.specs.Bool.{OnTrue, OnFalse};
ghost use Rattle.wire_queue.specs.ListSteps.{HasTaken};
ghost use Rattle.isolation_law.specs.GuestState.{page as page_of};
ghost use Rattle.guest_course.specs.CourseRules.{IsWritable};
ghost use Rattle.guest_course.specs.Acting.{IsOwnDelivery};
ghost use Rattle.guest_course.specs.Hurdles.{NeedsMove};
ghost use Rattle.guest_course.specs.ReceivingCalls.{HandIsLost, HandLives};
ghost use Rattle.guest_core.specs.GuestView.{guest_of, IsSameGuest, AreOf, shared_by};
ghost use Rattle.guest_core.specs.Kept.{IsKept};
ghost use Rattle.guest_core.specs.MoveCalls.{StillActs};
ghost use Rattle.guest_core.specs.PacketCalls.{AfterHand, BeginsByHand, DiscardsNext, IsArmed, Fetches, KeepsEnds, ReceivesNext, SameSends, SharesPacket, TakesPacket};

use crate::frames::{count_untied, give_back};
use crate::laws::laws;
use crate::parts::Parts;
use crate::sharing::hold_too;
use crate::turning::begin_entry;
use crate::{Packeted, Ready, Resources};
use base_words::{By, Event, MoveKind, Ppn};
use guest_course::Hurdle;
use isolation_law::{exchanges, frames_spread, hand_keeps, run_grows, uses_change};
use std::alloc::{AllocError, Global};
use std::sync::Wait;

impl Parts {
    /// Whether the guest hasn't ended and a page is armed.
    #[inline]
    pub(crate) fn is_armed(&self) -> bool
        ensures yes { OnTrue result (IsArmed (guest_of self.now)) }
        ensures no { OnFalse result (IsArmed (guest_of self.now) → ⊥) }
    {
        self.course.ended.is_none() && self.course.armed().is_some()
    }

    /// Takes the next packet in hand where none is, if a wire has one.
    fn fetch<R: Wait>(&mut self, rt: &R, resources: &Resources)
        requires kept { IsKept self.old }
        requires wires { (guest_of self.old).wires ≡ resources.now.wires.now }
        requires armed { IsArmed (guest_of self.old) }
        ensures kept { IsKept self.new }
        ensures fetches { Fetches (guest_of self.old) (guest_of self.new) }
        ensures sends { SameSends (guest_of self.old).passes (guest_of self.new).passes }
        ensures acts { StillActs (guest_of self.old) (guest_of self.new) }
        ensures same { IsSameGuest (guest_of self.old) (guest_of self.new) }
        ensures room { (guest_of self.new).room ≡ (guest_of self.old).room }
    {
        hand_keeps();
        run_grows();
        laws();
        if self.course.hand.is_some() {
            return;
        }
        if let Some(packet) = self.wiring.next(rt, resources.wires) {
            self.course.take_in_hand(packet);
        }
    }

    /// Copies the packet in hand into the page that is armed.
    fn receive(&mut self, alloc: Global) -> Result<(), AllocError>
        requires kept { IsKept self.old }
        requires room { 2 ≤ (guest_of self.old).room }
        requires armed { IsArmed (guest_of self.old) }
        requires in_hand { (guest_of self.old).state.hand ≢ None }
        requires lives { HandLives (guest_of self.old).state }
        requires writable { (q : ℕ) → (guest_of self.old).state.devices.armed ≡ Some q → IsWritable (page_of (guest_of self.old).state q) }
        ensures kept { IsKept self.new }
        ensures received { OnOk result (ReceivesNext (guest_of self.old) (guest_of self.new)) }
        ensures view { (guest_of self.new).view ≡ (guest_of self.old).view }
        ensures unchanged { OnErr result (self.new ≡ self.old) }
        ensures leaves { AfterHand (guest_of self.old) (guest_of self.new) }
    {
        exchanges();
        uses_change();
        laws();
        let place = self.course.received.len() as u64;
        self.course.receive(alloc)?;
        self.journal.push(Event::PacketIn(place));
        Ok(())
    }

    /// Throws the packet in hand away, whose cell has failed.
    fn discard(&mut self, alloc: Global) -> Result<(), AllocError>
        requires kept { IsKept self.old }
        requires room { 2 ≤ (guest_of self.old).room }
        requires armed { IsArmed (guest_of self.old) }
        requires lost { HandIsLost (guest_of self.old).state }
        ensures kept { IsKept self.new }
        ensures discarded { OnOk result ((lost : HandIsLost (guest_of self.old).state) → DiscardsNext (guest_of self.old) lost.packet.cell (guest_of self.new)) }
        ensures unchanged { OnErr result (self.new ≡ self.old) }
        ensures leaves { AfterHand (guest_of self.old) (guest_of self.new) }
    {
        exchanges();
        uses_change();
        laws();
        let place = self.course.discarded.len() as u64;
        self.course.discard(alloc)?;
        self.journal.push(Event::Discard(place));
        Ok(())
    }

    /// Ends the move by which the page that is armed is taken shared for the packet in hand: the frame that the packet hands on backs it.
    fn end_delivery(
        &mut self,
        alloc: Global,
        page: Ppn,
        resources: &Resources,
    ) -> Result<(), AllocError>
        requires kept { IsKept self.old }
        requires shared { AreOf (shared_by resources.now) (guest_of self.old) }
        requires room { 2 ≤ (guest_of self.old).room }
        requires armed { IsArmed (guest_of self.old) }
        requires in_hand { (guest_of self.old).state.hand ≢ None }
        requires lives { HandLives (guest_of self.old).state }
        requires page { (guest_of self.old).state.devices.armed ≡ Some page.0 }
        requires own { (q : ℕ) → (guest_of self.old).state.devices.armed ≡ Some q → IsOwnDelivery (guest_of self.old).state q }
        ensures kept { IsKept self.new }
        ensures received { OnOk result (ReceivesNext (guest_of self.old) (guest_of self.new)) }
        ensures unchanged { OnErr result (self.new ≡ self.old) }
        ensures leaves { AfterHand (guest_of self.old) (guest_of self.new) }
    {
        exchanges();
        uses_change();
        laws();
        let place = self.course.received.len() as u64;
        let untied = self.course.pmap.untied_by_taking(page);
        let freed = self.course.end_delivery(alloc)?;
        give_back(&self.course, &mut self.holder, resources.table, freed);
        count_untied(&self.course, &mut self.uses, untied);
        self.journal.push(Event::PacketIn(place));
        Ok(())
    }

    /// Begins to take the page shared that is armed, where the packet in hand hands on a frame that somebody holds still. Want of memory
    /// comes only before the frame's word was touched.
    fn share_packet(
        &mut self,
        alloc: Global,
        page: Ppn,
        resources: &Resources,
    ) -> Result<bool, AllocError>
        requires kept { IsKept self.old }
        requires shared { AreOf (shared_by resources.now) (guest_of self.old) }
        requires room { 2 ≤ (guest_of self.old).room }
        requires not_ended { (guest_of self.old).state.end ≡ None }
        requires armed { (guest_of self.old).state.devices.armed ≡ Some page.0 }
        requires in_hand { (guest_of self.old).state.hand ≢ None }
        requires lives { HandLives (guest_of self.old).state }
        requires rests { (page_of (guest_of self.old).state page.0).move ≡ None }
        ensures kept { IsKept self.new }
        ensures shares { IfOk result (SharesPacket (guest_of self.old) page (guest_of self.new)) }
        ensures unchanged { OnErr result (self.new ≡ self.old) }
        ensures leaves { AfterHand (guest_of self.old) (guest_of self.new) }
    {
        exchanges();
        uses_change();
        frames_spread();
        laws();
        let Some((target, delivery)) = self.course.delivery()? else {
            return Ok(false);
        };
        let table = resources.table;
        let held = hold_too(
            &self.course,
            &mut self.holder,
            &mut self.uses,
            table,
            &target,
        );
        if !held {
            return Ok(false);
        }
        self.course.begin_for_delivery(page, target, delivery);
        let kind = MoveKind::TakeShared;
        self.journal
            .push(begin_entry(&self.course, page, kind, By::Packet));
        Ok(true)
    }

    /// Begins the move that the page needs that is armed before the packet in hand is copied into it.
    fn begin_for_packet(&mut self, page: Ppn, kind: MoveKind)
        requires kept { IsKept self.old }
        requires room { 2 ≤ (guest_of self.old).room }
        requires not_ended { (guest_of self.old).state.end ≡ None }
        requires armed { (guest_of self.old).state.devices.armed ≡ Some page.0 }
        requires in_hand { (guest_of self.old).state.hand ≢ None }
        requires lives { HandLives (guest_of self.old).state }
        requires needs { NeedsMove (guest_of self.old).state page.0 kind }
        ensures kept { IsKept self.new }
        ensures begins { BeginsByHand (guest_of self.old) page kind (guest_of self.new) }
        ensures view { (guest_of self.new).view ≡ (guest_of self.old).view }
        ensures leaves { AfterHand (guest_of self.old) (guest_of self.new) }
    {
        exchanges();
        uses_change();
        laws();
        self.course.begin_for_packet(page, kind);
        self.journal
            .push(begin_entry(&self.course, page, kind, By::Packet));
    }

    /// The page that is armed has a move: it ends with the packet in hand where it is for that one, and is else finished where nobody waits
    /// for it any more.
    fn meet_packet(
        &mut self,
        alloc: Global,
        page: Ppn,
        resources: &Resources,
    ) -> Result<Packeted, AllocError>
        requires kept { IsKept self.old }
        requires shared { AreOf (shared_by resources.now) (guest_of self.old) }
        requires room { 2 ≤ (guest_of self.old).room }
        requires armed { IsArmed (guest_of self.old) }
        requires page { (guest_of self.old).state.devices.armed ≡ Some page.0 }
        requires in_hand { (guest_of self.old).state.hand ≢ None }
        requires lives { HandLives (guest_of self.old).state }
        requires moves { (page_of (guest_of self.old).state page.0).move ≢ None }
        ensures kept { IsKept self.new }
        ensures takes { TakesPacket (guest_of self.old) (guest_of self.new) result }
        ensures leaves { AfterHand (guest_of self.old) (guest_of self.new) }
    {
        if self.course.is_own_delivery(page) {
            self.end_delivery(alloc, page, resources)?;
            return Ok(Packeted::Delivered);
        }
        match self.finish_ready(page, resources) {
            Ready::Finished => Ok(Packeted::Finished(page)),
            Ready::Waits(waiting) => Ok(Packeted::Waits(page, waiting)),
            Ready::NoMove => unreachable!(),
        }
    }

    /// The packet in hand comes into the page that is armed, once nothing is in its way: the frame that it hands on, or else its bytes.
    fn take_in(&mut self, alloc: Global, resources: &Resources) -> Result<Packeted, AllocError>
        requires kept { IsKept self.old }
        requires shared { AreOf (shared_by resources.now) (guest_of self.old) }
        requires room { 2 ≤ (guest_of self.old).room }
        requires armed { IsArmed (guest_of self.old) }
        requires in_hand { (guest_of self.old).state.hand ≢ None }
        requires lives { HandLives (guest_of self.old).state }
        ensures kept { IsKept self.new }
        ensures takes { TakesPacket (guest_of self.old) (guest_of self.new) result }
        ensures leaves { AfterHand (guest_of self.old) (guest_of self.new) }
    {
        let Some(armed) = self.course.armed() else {
            unreachable!();
        };
        match self.course.packet_hurdle() {
            Hurdle::Waits(page) => self.meet_packet(alloc, page, resources),
            Hurdle::Needs(page, kind) => {
                if self.share_packet(alloc, page, resources)? {
                    return Ok(Packeted::Begun(page));
                }
                self.begin_for_packet(page, kind);
                Ok(Packeted::Begun(page))
            }
            Hurdle::Free => {
                if self.share_packet(alloc, armed, resources)? {
                    return Ok(Packeted::Begun(armed));
                }
                self.receive(alloc)?;
                Ok(Packeted::Delivered)
            }
        }
    }

    /// Whether all was taken that the wire from another guest accepted. Both guests stay as they are.
    pub(crate) fn drained<R: Wait>(
        &mut self,
        rt: &R,
        from: &mut Parts,
        resources: &Resources,
    ) -> bool
        requires kept { IsKept self.old × IsKept from.old }
        requires wires { ((guest_of self.old).wires ≡ resources.now.wires.now) × ((guest_of from.old).wires ≡ resources.now.wires.now) }
        requires other { (guest_of from.old).passes.guest.0 ≢ (guest_of self.old).passes.guest.0 }
        ensures kept { IsKept self.new × IsKept from.new }
        ensures answer { HasTaken (guest_of self.old).passes (guest_of from.old).passes result }
        ensures stays { KeepsEnds (guest_of self.old) (guest_of self.new) × KeepsEnds (guest_of from.old) (guest_of from.new) }
    {
        self.wiring.has_taken(rt, resources.wires, &mut from.wiring)
    }

    /// Takes the next packet in hand where none is, and copies the one in hand into the page that is armed, or begins or finishes the move
    /// that is in its way; one whose cell has failed is thrown away.
    #[cold]
    #[inline(never)]
    fn take_next<R: Wait>(
        &mut self,
        rt: &R,
        alloc: Global,
        resources: &Resources,
    ) -> Result<Packeted, AllocError>
        requires kept { IsKept self.old }
        requires shared { AreOf (shared_by resources.now) (guest_of self.old) }
        requires room { 2 ≤ (guest_of self.old).room }
        requires armed { IsArmed (guest_of self.old) }
        ensures kept { IsKept self.new }
        ensures takes { TakesPacket (guest_of self.old) (guest_of self.new) result }
        ensures sends { SameSends (guest_of self.old).passes (guest_of self.new).passes }
        ensures acts { StillActs (guest_of self.old) (guest_of self.new) }
        ensures same { IsSameGuest (guest_of self.old) (guest_of self.new) }
        ensures room { (guest_of self.old).room ≤ (guest_of self.new).room + 2 }
    {
        self.fetch(rt, resources);
        if self.course.hand.is_none() {
            return Ok(Packeted::NoneInHand);
        }
        if let Some(cell) = self.course.lost_packet() {
            self.discard(alloc)?;
            return Ok(Packeted::Discarded(cell));
        }
        self.take_in(alloc, resources)
    }

    /// Takes the next packet in hand where none is, and copies the one in hand into the page that is armed, where one is.
    #[inline]
    pub(crate) fn packet_in<R: Wait>(
        &mut self,
        rt: &R,
        alloc: Global,
        resources: &Resources,
    ) -> Result<Packeted, AllocError>
        requires kept { IsKept self.old }
        requires shared { AreOf (shared_by resources.now) (guest_of self.old) }
        requires room { 2 ≤ (guest_of self.old).room }
        ensures kept { IsKept self.new }
        ensures takes { TakesPacket (guest_of self.old) (guest_of self.new) result }
        ensures sends { SameSends (guest_of self.old).passes (guest_of self.new).passes }
        ensures acts { StillActs (guest_of self.old) (guest_of self.new) }
        ensures same { IsSameGuest (guest_of self.old) (guest_of self.new) }
        ensures room { (guest_of self.old).room ≤ (guest_of self.new).room + 2 }
    {
        if !self.is_armed() {
            return Ok(Packeted::NotArmed);
        }
        self.take_next(rt, alloc, resources)
    }
}
