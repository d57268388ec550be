//! Pages that are taken shared, by disk reads and packets.
ghost use Rattle.std.specs.Prelude.{◌≡◌, ◌≢◌, ◌↔◌, ◌<◌, ◌≤◌, ◌+◌, ℕ, true, Some, None, IfSome, IfNone, IfOk, IsTrue, OnOk, OnErr, length};
ghost use Rattle.std.specs.Bool.{OnTrue, OnFalse};
ghost use Rattle.std.specs.Vec.{vec_len, vec_capacity};
ghost use Rattle.base_words.specs.declared.moves.By.TheVariants.{Packet, Step};
ghost use Rattle.base_words.specs.declared.moves.MoveKind.TheVariants.{TakeShared};
ghost use Rattle.private_machine.specs.Backing.{TakesShared, page_at};
ghost use Rattle.private_machine.specs.DeviceAct.{ReadsDisk};
ghost use Rattle.private_machine.specs.Operation.{Packet as InHand, ReadsBlock, Delivers};
ghost use Rattle.private_machine.specs.PageMove.{dropped_taken};
ghost use Rattle.pmap_table.specs.Ending.{numbers_of};
ghost use Rattle.pmap_table.specs.Frames.{shared_copy_of};
ghost use Rattle.isolation_law.specs.GuestState.{block as block_of, hand_place as hand_place_of, operation_of};
ghost use Rattle.isolation_law.specs.MoveRows.{Begins, LiesAlive, with_begun};
ghost use Rattle.isolation_law.specs.Needs.{may_share_block};
ghost use Rattle.isolation_law.specs.PacketRows.{EndsDelivery};
ghost use Rattle.isolation_law.specs.Phases.{GoesOn};
ghost use Rattle.isolation_law.specs.StepRows.{EndsRead, IsEmulated, taken_shared};
ghost use Rattle.guest_course.specs.Acting.{act_of, page_used, IsOwnDelivery, IsOwnRead, IsTaken};
ghost use Rattle.guest_course.specs.declared.operation.Operation.TheVariants as operations;
ghost use Rattle.guest_course.specs.CourseView.{purpose, purpose_of, surroundings, state_of};
ghost use Rattle.guest_course.specs.CourseRules.{AllStand, IsSound};
ghost use Rattle.guest_course.specs.EmulateCalls.{LeavesAct, StaysLoaded};
ghost use Rattle.guest_course.specs.LeavingCalls.{UsesCell};
ghost use Rattle.guest_course.specs.Packets.{SamePackets};
ghost use Rattle.guest_course.specs.Rebacking.{Rebacked};
ghost use Rattle.guest_course.specs.ReceivingCalls.{HandLives, UsesPlace};
ghost use Rattle.guest_course.specs.TakingCalls.{handed_in, place_of, HandsOn, HasCode, SharesBlock, SharesNoBlock};

use crate::course::Course;
use crate::granting::walk;
use crate::laws::acts_are_at_hand;
use crate::leaving::begin;
use crate::operation::{Delivery, Operation};
use crate::receiving::got;
use crate::stepping::tick;
use crate::task::{DONE, Task};
use base_words::{Ppn, ProcId, SharedFrame, Use, VcpuId};
use guest_devs::DevAct;
use isolation_law::row_keeps;
use page_moves::{is_ready, is_taking, take_shared};
use pmap_table::{Freed, another_owner};
use std::alloc::{AllocError, Global};
use std::sync::Arc;
use trap_emulate::{Access, step_leads};
use wire_queue::Body;

/// The place of the packet for which a page is taken shared, if it is for one.
fn place_of(operation: &Option<Operation>) -> Option<usize>
    ensures { result ≡ place_of (purpose_of operation.now) }
{
    match operation {
        Some(Operation::Delivers(delivery)) => Some(delivery.place),
        Some(Operation::ReadsBlock(..)) | None => None,
    }
}

impl Course {
    /// Whether a page has a move that takes it shared and for which nobody waits.
    fn is_taken(&self, page: Ppn) -> bool
        requires { page.0 < length self.now.pmap.pages }
        ensures yes { OnTrue result (IsTaken (state_of self.now) page.0) }
        ensures no { OnFalse result (IsTaken (state_of self.now) page.0 → ⊥) }
    {
        is_taking(&self.pmap, page) && is_ready(&self.pmap, page)
    }

    /// Whether a page is being taken shared for a virtual processor's read of a block.
    fn is_for_read(&self, vcpu: VcpuId, block: u32, page: Ppn) -> bool
        requires { page.0 < length self.now.operations.items }
        ensures { IsTrue result ↔ (operation_of (state_of self.now) page.0 ≡ Some (ReadsBlock vcpu.0 block)) }
    {
        match &self.operations[page.0 as usize] {
            Some(Operation::ReadsBlock(reader, read)) => *reader == vcpu && *read == block,
            Some(Operation::Delivers(_)) | None => false,
        }
    }

    /// How many packets came to hand before the one in hand, or before the next.
    fn hand_place(&self) -> usize
        ensures { result ≡ hand_place_of (state_of self.now) }
    {
        self.received.len() + self.discarded.len()
    }

    /// Whether a page is being taken shared for the packet in hand.
    fn is_for_packet(&self, page: Ppn) -> bool
        requires { page.0 < length self.now.operations.items }
        ensures yes { OnTrue result ((kept : InHand) × (operation_of (state_of self.now) page.0 ≡ Some (Delivers (hand_place_of (state_of self.now)) kept))) }
        ensures no { OnFalse result ((kept : InHand) → operation_of (state_of self.now) page.0 ≡ Some (Delivers (hand_place_of (state_of self.now)) kept) → ⊥) }
    {
        match place_of(&self.operations[page.0 as usize]) {
            Some(place) => place == self.hand_place(),
            None => false,
        }
    }

    /// Whether an act that was left is the disk read for which its page is taken shared, where nobody waits for that move any more and the
    /// guest hasn't written the block since.
    pub fn is_own_read(&self, vcpu: VcpuId, act: DevAct, page: Ppn) -> bool
        requires sound { IsSound self.now }
        requires goes_on { GoesOn (state_of self.now) }
        requires left { (p : ℕ) × LeavesAct (state_of self.now) p vcpu.0 act (state_of self.now) }
        requires used { page_used (act_of (state_of self.now) vcpu.0 act) ≡ Some page.0 }
        ensures yes { OnTrue result (IsOwnRead (state_of self.now) vcpu.0 page.0) }
        ensures no { OnFalse result (IsOwnRead (state_of self.now) vcpu.0 page.0 → ⊥) }
    {
        acts_are_at_hand();
        let DevAct::DiskRead = act else {
            return false;
        };
        let block = self.devs.transfer(vcpu).block;
        self.is_taken(page) && self.is_for_read(vcpu, block, page) && !self.disk.is_private(block)
    }

    /// Whether a page is taken shared for the packet in hand, where nobody waits for that move any more.
    pub fn is_own_delivery(&self, page: Ppn) -> bool
        requires sound { IsSound self.now }
        requires goes_on { GoesOn (state_of self.now) }
        requires page { page.0 < length self.now.pmap.pages }
        ensures yes { OnTrue result (IsOwnDelivery (state_of self.now) page.0) }
        ensures no { OnFalse result (IsOwnDelivery (state_of self.now) page.0 → ⊥) }
    {
        self.is_taken(page) && self.is_for_packet(page)
    }
}

impl Course {
    /// Whether a page has the instruction that a virtual processor is about to make.
    fn has_code(&self, vcpu: VcpuId, page: Ppn) -> bool
        requires there { vcpu.0 < length self.now.vcpus.items }
        ensures yes { OnTrue result (HasCode (state_of self.now) vcpu.0 page.0) }
        ensures no { OnFalse result (HasCode (state_of self.now) vcpu.0 page.0 → ⊥) }
    {
        let current = &self.vcpus[vcpu.0 as usize];
        let fetch = Access {
            purpose: Use::Fetch,
            unit: 4,
            address: current.registers.pc,
        };
        match walk(current, self.pmap.len(), fetch) {
            Some(code) => code.page == page,
            None => false,
        }
    }

    /// The block that an act reads that was left, and the page into which it comes, where the page may be taken shared for it: the guest
    /// hasn't written the block, its home cell lives, and the page hasn't the read's own instruction, which could never be made as long as
    /// its page has a move.
    pub fn to_share(&self, vcpu: VcpuId, act: DevAct) -> Option<(u32, Ppn)>
        requires sound { IsSound self.now }
        requires vcpu { vcpu.0 < length self.now.devs.state.page.transfers }
        requires there { vcpu.0 < length self.now.vcpus.items }
        ensures some { IfSome result (λ x. SharesBlock (state_of self.now) vcpu.0 act x.0 x.1.0) }
        ensures none { IfNone result (SharesNoBlock (state_of self.now) vcpu.0 act) }
    {
        let DevAct::DiskRead = act else {
            return None;
        };
        let transfer = self.devs.transfer(vcpu);
        if self.status_of(&transfer) != DONE || self.disk.is_private(transfer.block) {
            return None;
        }
        let page = Ppn(transfer.page);
        if self.has_code(vcpu, page) || self.is_dead(self.cell_of_node(self.around.home)) {
            return None;
        }
        Some((transfer.block, page))
    }

    /// Begins to take the page shared into which a block comes with a disk read that was left: this frame has the block as it was given, and
    /// the guest hasn't written it.
    pub fn begin_for_block(
        &mut self,
        processor: ProcId,
        vcpu: VcpuId,
        act: DevAct,
        block: u32,
        page: Ppn,
        target: SharedFrame,
    )
        requires sound { IsSound self.old }
        requires left { LeavesAct (state_of self.old) processor.0 vcpu.0 act (state_of self.old) }
        requires reads { act_of (state_of self.old) vcpu.0 act ≡ ReadsDisk block page.0 }
        requires page { page.0 < length self.old.pmap.pages }
        requires unwritten { may_share_block (state_of self.old) block ≡ true }
        requires lives { LiesAlive (state_of self.old) (Some (shared_copy_of target)) }
        requires bytes { (shared_copy_of target).bytes ≡ (block_of (state_of self.old) block).given }
        requires rests { (page_at self.old.pmap.pages page.0).move ≡ None }
        requires room { 0 < self.old.pmap.room }
        ensures sound { IsSound self.new }
        ensures begins { Begins (state_of self.old) page.0 TakeShared (state_of self.old).around.home (Step processor) (state_of self.new) }
        ensures opened { state_of self.new ≡ with_begun (state_of self.old) page.0 (TakesShared (shared_copy_of target)) (Some (ReadsBlock vcpu.0 block)) (state_of self.old).spares }
        ensures goes_on { GoesOn (state_of self.new) }
        ensures print_room { self.new.devs.print_room ≡ self.old.devs.print_room }
        ensures send_room { self.new.devs.send_room ≡ self.old.devs.send_room }
        ensures room { self.new.pmap.room + 1 ≡ self.old.pmap.room }
        ensures cells { self.new.sent_from ≡ self.old.sent_from }
        ensures skips { self.new.skips ≡ self.old.skips }
        ensures packets { SamePackets self.old self.new }
    {
        acts_are_at_hand();
        self.begin_taking(page, target, Operation::ReadsBlock(vcpu, block));
    }

    /// The frame that the packet in hand hands on, with which a page may be taken shared for it, if it hands one on.
    pub fn delivery(&self) -> Result<Option<(SharedFrame, Delivery)>, AllocError>
        requires { IsSound self.now }
        ensures some { IfOk result (λ found. IfSome found (λ x. HandsOn self.now x.0 x.1)) }
        ensures none { IfOk result (λ found. IfNone found (handed_in self.now ≡ None)) }
    {
        let Some(packet) = &self.hand else {
            return Ok(None);
        };
        let Body::Whole(frame) = &packet.body else {
            return Ok(None);
        };
        let _whole = frame.page.bytes();
        let target = another_owner(frame)?;
        let delivery = Delivery {
            place: self.hand_place(),
            from: packet.from,
            cell: packet.cell,
            page: Arc::try_clone(&frame.page)?,
        };
        Ok(Some((target, delivery)))
    }

    /// Begins to take the page shared that is armed, with the frame that the packet in hand hands on.
    pub fn begin_for_delivery(&mut self, page: Ppn, target: SharedFrame, delivery: Delivery)
        requires sound { IsSound self.old }
        requires goes_on { GoesOn (state_of self.old) }
        requires armed { (state_of self.old).devices.armed ≡ Some page.0 }
        requires lives { HandLives (state_of self.old) }
        requires target { LiesAlive (state_of self.old) (Some (shared_copy_of target)) }
        requires hands { HandsOn self.old target delivery }
        requires rests { (page_at self.old.pmap.pages page.0).move ≡ None }
        requires room { 0 < self.old.pmap.room }
        ensures sound { IsSound self.new }
        ensures begins { Begins (state_of self.old) page.0 TakeShared (state_of self.old).around.home Packet (state_of self.new) }
        ensures opened { state_of self.new ≡ with_begun (state_of self.old) page.0 (TakesShared (shared_copy_of target)) (Some (purpose (operations.Delivers delivery))) (state_of self.old).spares }
        ensures goes_on { GoesOn (state_of self.new) }
        ensures print_room { self.new.devs.print_room ≡ self.old.devs.print_room }
        ensures send_room { self.new.devs.send_room ≡ self.old.devs.send_room }
        ensures room { self.new.pmap.room + 1 ≡ self.old.pmap.room }
        ensures cells { self.new.sent_from ≡ self.old.sent_from }
        ensures skips { self.new.skips ≡ self.old.skips }
        ensures packets { SamePackets self.old self.new }
    {
        self.begin_taking(page, target, Operation::Delivers(delivery));
    }
}

impl Course {
    /// The operation for which a page is taken shared ends that move: the frame that others may hold too is its master, and nothing is due
    /// of it. The answer has the frames to release.
    fn take(&mut self, page: Ppn) -> Freed
        requires page { page.0 < length self.old.pmap.pages }
        requires taken { IsTaken (state_of self.old) page.0 }
        requires operations { length self.old.operations.items ≡ length self.old.pmap.pages }
        requires stands { AllStand (surroundings self.old.around) 0 self.old.places.items }
        ensures taken { (t : IsTaken (state_of self.old) page.0) → state_of self.new ≡ taken_shared page.0 t.target (state_of self.old) }
        ensures freed { result ≡ numbers_of (dropped_taken (page_at self.old.pmap.pages page.0)) }
        ensures rebacked { Rebacked self.old self.new }
        ensures room { self.old.pmap.room ≤ self.new.pmap.room }
        ensures skips { self.new.skips ≡ self.old.skips }
        ensures packets { SamePackets self.old self.new }
        ensures lists { self.new.received ≡ self.old.received }
    {
        let freed = take_shared(&mut self.pmap, page);
        self.operations[page.0 as usize] = None;
        self.clear_dues(page);
        freed
    }

    /// Makes the disk read for which its page is taken shared, by which it ends that move: the block's shared frame backs the page. The
    /// answer has the frames to release.
    pub fn end_read(&mut self, vcpu: VcpuId, act: DevAct, page: Ppn) -> Freed
        requires sound { IsSound self.old }
        requires left { (p : ℕ) × LeavesAct (state_of self.old) p vcpu.0 act (state_of self.old) }
        requires own { IsOwnRead (state_of self.old) vcpu.0 page.0 }
        requires send_room { 0 < self.old.devs.send_room }
        requires cells { vec_len self.old.sent_from < vec_capacity self.old.sent_from }
        ensures sound { IsSound self.new }
        ensures ends { (p : ℕ) → IsEmulated (state_of self.old) p vcpu.0 → EndsRead (state_of self.old) p vcpu.0 (state_of self.new) }
        ensures freed { result ≡ numbers_of (dropped_taken (page_at self.old.pmap.pages page.0)) }
        ensures goes_on { GoesOn (state_of self.new) }
        ensures stays { StaysLoaded (state_of self.old) (state_of self.new) }
        ensures print_room { self.new.devs.print_room ≡ self.old.devs.print_room }
        ensures send_room { self.old.devs.send_room ≤ self.new.devs.send_room + 1 }
        ensures room { self.old.pmap.room ≤ self.new.pmap.room }
        ensures cell_room { UsesCell self.old.sent_from self.new.sent_from }
        ensures skips { self.new.skips ≡ self.old.skips }
        ensures packets { SamePackets self.old self.new }
    {
        row_keeps();
        step_leads();
        begin(&mut self.vcpus, &mut self.devs, vcpu);
        self.perform(vcpu, Task::Take(page));
        tick(&mut self.vcpus, vcpu);
        self.show_again(vcpu);
        self.take(page)
    }

    /// Receives the packet in hand for which the armed page is taken shared, by which it ends that move: the frame that the packet hands on
    /// backs the page. The answer has the frames to release. For want of memory nothing has changed.
    pub fn end_delivery(&mut self, alloc: Global) -> Result<Freed, AllocError>
        requires sound { IsSound self.old }
        requires goes_on { GoesOn (state_of self.old) }
        requires in_hand { self.old.hand ≢ None }
        requires lives { HandLives (state_of self.old) }
        requires armed { (state_of self.old).devices.armed ≢ None }
        requires own { (q : ℕ) → (state_of self.old).devices.armed ≡ Some q → IsOwnDelivery (state_of self.old) q }
        requires place { vec_len self.old.received < vec_capacity self.old.received }
        ensures sound { IsSound self.new }
        ensures ends { OnOk result (EndsDelivery (state_of self.old) (length self.old.received.items) (state_of self.new)) }
        ensures freed { IfOk result (λ freed. (q : ℕ) → (state_of self.old).devices.armed ≡ Some q → freed ≡ numbers_of (dropped_taken (page_at self.old.pmap.pages q))) }
        ensures unchanged { OnErr result (self.new ≡ self.old) }
        ensures goes_on { GoesOn (state_of self.new) }
        ensures free { OnOk result (self.new.hand ≡ None) }
        ensures stays { StaysLoaded (state_of self.old) (state_of self.new) }
        ensures print_room { self.new.devs.print_room ≡ self.old.devs.print_room }
        ensures send_room { self.new.devs.send_room ≡ self.old.devs.send_room }
        ensures room { self.old.pmap.room ≤ self.new.pmap.room }
        ensures cells { self.new.sent_from ≡ self.old.sent_from }
        ensures skips { self.new.skips ≡ self.old.skips }
        ensures place_room { UsesPlace self.old.received self.new.received }
        ensures discarded { self.new.discarded ≡ self.old.discarded }
    {
        row_keeps();
        let Some(page) = self.devs.armed() else {
            unreachable!();
        };
        let Some(packet) = &self.hand else {
            unreachable!();
        };
        let packet = got(alloc, packet)?;
        self.note_packet(page, &packet);
        let freed = self.take(page);
        self.hand = None;
        self.received.push_reserved(packet);
        Ok(freed)
    }
}
