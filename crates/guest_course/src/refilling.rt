//! A processor's TLB gets the half for which the processor trapped.
ghost use Rattle.std.specs.Prelude.{◌≡◌, ◌<◌, ◌%◌, ◌&&◌, IfSome, length, not, option_map};
ghost use Rattle.base_words.specs.declared.trap.TrapCause.TheVariants.{Dead};
ghost use Rattle.private_machine.specs.Backing.{page_at};
ghost use Rattle.isolation_law.specs.Needs.{none_of};
ghost use Rattle.isolation_law.specs.GuestState.{vcpu_of};
ghost use Rattle.isolation_law.specs.Coherence.{Coherent};
ghost use Rattle.isolation_law.specs.Phases.{GoesOn, Runs};
ghost use Rattle.private_machine.specs.TrapAccess.{access_of};
ghost use Rattle.trap_emulate.specs.Requests.{wanted_of};
ghost use Rattle.guest_course.specs.CourseView.{state_of};
ghost use Rattle.guest_course.specs.CourseRules.{IsSound};
ghost use Rattle.guest_course.specs.StepCalls.{MayStep, ReachesNoneLost, TrapsFor};
ghost use Rattle.guest_course.specs.Rebacking.{Rebacked};
ghost use Rattle.guest_course.specs.Granting.{HasAccess, IsInRange, Grants};
ghost use Rattle.guest_course.specs.RefillCalls.{Serves, IsFilled, MayFill, StaysUnless};
ghost use Rattle.guest_course.specs.Packets.{SamePackets};

use crate::course::Course;
use crate::granting::{Granted, accessed, by_second, is_miss, lost_frame, walk};
use base_words::{FrameNo, MoveKind, Ppn, ProcId, TrapCause, VcpuId};
use isolation_law::{lost_is_replica, read_only_needs, row_keeps, second_level_serves, traps_tell};
use l2_tlb::L2Entry;
use pmap_table::Pmap;
use trap_emulate::Access;

/// What became of an access for which a processor trapped.
#[derive(Clone, Copy, Debug, PartialEq, Eq)]
pub enum Refill {
    /// The guest itself grants it on memory, and the processor's TLB has its half now.
    Filled,
    /// The guest itself grants it on this page, or it reached the page by a frame of a failed cell; the page has a move that isn't
    /// over. Nothing has changed.
    Waits(Ppn),
    /// It is a store that the guest itself grants on this page, which needs this move first. Nothing has changed.
    Needs(Ppn, MoveKind),
    /// It reached this page by a frame of a failed cell, and the page has to be collapsed first. Nothing has changed.
    Lost(Ppn),
    /// It was for no access, or for one that the guest itself doesn't grant on memory. Nothing has changed.
    Denied,
}

/// Whether a store to a page that the guest grants may go through a processor's TLB: the page is on one frame, of the guest's own.
fn is_writable(pmap: &Pmap, page: Ppn, store: bool) -> bool
    requires { page.0 < length pmap.now.pages }
    ensures { result ≡ (not (page_at pmap.now.pages page.0).shared && (none_of (page_at pmap.now.pages page.0).replicas && store)) }
{
    !pmap.is_shared(page) && pmap.replicas(page) == 0 && store
}

impl Course {
    /// What the guest itself says of an access: by the second-level entry of its virtual page, where there is one.
    fn granted(&self, vcpu: VcpuId, access: Access) -> Option<Granted>
        requires coherent { Coherent (state_of self.now) }
        requires there { vcpu.0 < length self.now.vcpus.items }
        requires seconds { length self.now.seconds.items ≡ length self.now.vcpus.items }
        requires some { 0 < access.unit }
        requires divides { 4 % access.unit ≡ 0 }
        requires in_range { IsInRange (vcpu_of (state_of self.now) vcpu.0) (wanted_of access) }
        ensures { Grants (vcpu_of (state_of self.now) vcpu.0) (length self.now.pmap.pages) (wanted_of access) result }
    {
        second_level_serves();
        let current = &self.vcpus[vcpu.0 as usize];
        let number = access.address / 4096;
        match self.seconds[vcpu.0 as usize].get(number, current.cp0.asid()) {
            Some(entry) => by_second(entry, access.purpose),
            None => walk(current, self.pmap.len(), access),
        }
    }

    /// The access for which a virtual processor trapped.
    fn accessed(&self, vcpu: VcpuId, cause: TrapCause) -> Option<Access>
        requires there { vcpu.0 < length self.now.vcpus.items }
        requires access { HasAccess (vcpu_of (state_of self.now) vcpu.0).registers cause }
        ensures access { option_map wanted_of result ≡ access_of (vcpu_of (state_of self.now) vcpu.0).registers cause }
        ensures some { IfSome result (λ a. 0 < a.unit) }
        ensures divides { IfSome result (λ a. 4 % a.unit ≡ 0) }
    {
        let mut registers = self.vcpus[vcpu.0 as usize].registers;
        accessed(&mut registers, cause)
    }

    /// The half of an access joins a processor's TLB, and with it the second-level entry.
    fn fill(&mut self, processor: ProcId, vcpu: VcpuId, address: u32, granted: Granted)
        requires { MayFill self.old processor.0 vcpu.0 granted.page.0 }
        ensures filled { IsFilled (state_of self.old) processor.0 vcpu.0 address granted (state_of self.new) }
        ensures rebacked { Rebacked self.old self.new }
        ensures room { self.new.pmap.room ≡ self.old.pmap.room }
        ensures cells { self.new.sent_from ≡ self.old.sent_from }
        ensures skips { self.new.skips ≡ self.old.skips }
        ensures packets { SamePackets self.old self.new }
    {
        let asid = self.vcpus[vcpu.0 as usize].cp0.asid();
        let dead = self.dead_cells();
        let page = granted.page;
        let writable = is_writable(&self.pmap, page, granted.store);
        let place = &mut self.places[processor.0 as usize];
        let shape = &self.around.site.shape;
        let frame = self.pmap.nearest(page, place.node, shape, dead);
        place
            .tlb
            .fill(address, asid, granted.global, page, frame, writable);
        self.pmap.map(page, processor);
        self.seconds[vcpu.0 as usize].put(L2Entry {
            vpn: address / 4096,
            asid,
            global: granted.global,
            page,
            store: granted.store,
        });
    }

    /// What is to be done about a frame of a failed cell for which a processor trapped. The page is that of a half that names the frame.
    #[cold]
    fn lost(&self, processor: ProcId, vcpu: VcpuId, frame: FrameNo) -> Refill
        requires sound { IsSound self.now }
        requires may { MayStep (state_of self.now) processor.0 vcpu.0 }
        requires traps { TrapsFor (state_of self.now) processor.0 vcpu.0 (Dead frame) }
        ensures serves { Serves (state_of self.now) processor.0 vcpu.0 (Dead frame) (state_of self.now) result }
        ensures stays { StaysUnless result self.now self.now }
    {
        lost_is_replica();
        match self.places[processor.0 as usize].tlb.page_of(frame) {
            Some(page) => {
                if self.pmap.open_move(page).is_some() {
                    Refill::Waits(page)
                } else {
                    Refill::Lost(page)
                }
            }
            None => unreachable!(),
        }
    }

    /// Gives a processor's TLB the half for which the processor trapped, which wasn't for a frame of a failed cell.
    fn give_half(&mut self, processor: ProcId, vcpu: VcpuId, cause: TrapCause) -> Refill
        requires sound { IsSound self.old }
        requires may { MayStep (state_of self.old) processor.0 vcpu.0 }
        requires traps { TrapsFor (state_of self.old) processor.0 vcpu.0 cause }
        requires alive { ReachesNoneLost (state_of self.old) processor.0 vcpu.0 }
        ensures sound { IsSound self.new }
        ensures serves { Serves (state_of self.old) processor.0 vcpu.0 cause (state_of self.new) result }
        ensures stays { StaysUnless result self.old self.new }
        ensures goes_on { GoesOn (state_of self.new) }
        ensures runs { Runs (state_of self.new) processor.0 vcpu.0 }
        ensures print_room { self.new.devs.print_room ≡ self.old.devs.print_room }
        ensures send_room { self.new.devs.send_room ≡ self.old.devs.send_room }
        ensures room { self.new.pmap.room ≡ self.old.pmap.room }
        ensures cells { self.new.sent_from ≡ self.old.sent_from }
        ensures skips { self.new.skips ≡ self.old.skips }
        ensures packets { SamePackets self.old self.new }
    {
        row_keeps();
        traps_tell();
        read_only_needs();
        let Some(access) = self.accessed(vcpu, cause) else {
            return Refill::Denied;
        };
        let Some(granted) = self.granted(vcpu, access) else {
            return Refill::Denied;
        };
        let page = granted.page;
        if self.pmap.open_move(page).is_some() {
            return Refill::Waits(page);
        }
        if is_miss(&cause) {
            self.fill(processor, vcpu, access.address, granted);
            return Refill::Filled;
        }
        Refill::Needs(page, self.need(page))
    }

    /// Gives a processor's TLB the half for which the processor trapped, where the guest itself grants the access on memory. It
    /// doesn't while the page has a move, nor for a store into a page that needs one first, nor where the page was reached by a frame of
    /// a failed cell.
    pub fn refill(&mut self, processor: ProcId, vcpu: VcpuId, cause: TrapCause) -> Refill
        requires sound { IsSound self.old }
        requires may { MayStep (state_of self.old) processor.0 vcpu.0 }
        requires traps { TrapsFor (state_of self.old) processor.0 vcpu.0 cause }
        ensures sound { IsSound self.new }
        ensures serves { Serves (state_of self.old) processor.0 vcpu.0 cause (state_of self.new) result }
        ensures stays { StaysUnless result self.old self.new }
        ensures goes_on { GoesOn (state_of self.new) }
        ensures runs { Runs (state_of self.new) processor.0 vcpu.0 }
        ensures print_room { self.new.devs.print_room ≡ self.old.devs.print_room }
        ensures send_room { self.new.devs.send_room ≡ self.old.devs.send_room }
        ensures room { self.new.pmap.room ≡ self.old.pmap.room }
        ensures cells { self.new.sent_from ≡ self.old.sent_from }
        ensures skips { self.new.skips ≡ self.old.skips }
        ensures packets { SamePackets self.old self.new }
    {
        match lost_frame(cause) {
            Some(frame) => self.lost(processor, vcpu, frame),
            None => self.give_half(processor, vcpu, cause),
        }
    }
}
