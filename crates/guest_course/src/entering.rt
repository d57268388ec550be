//! What the monitor does for a processor that trapped.
ghost use Rattle.std.specs.Prelude.{◌≡◌, ◌<◌, ◌≤◌, ◌+◌};
ghost use Rattle.guest_course.specs.declared.entering.Entry.TheVariants.{Emulate};
ghost use Rattle.guest_course.specs.CourseView.{state_of};
ghost use Rattle.guest_course.specs.CourseRules.{IsSound};
ghost use Rattle.guest_course.specs.StepCalls.{MayStep, TrapsFor};
ghost use Rattle.guest_course.specs.EmulateCalls.{UsesNoPage};
ghost use Rattle.guest_course.specs.EntryCalls.{Enters, GoesOnAfter, StaysWithout};
ghost use Rattle.guest_course.specs.Packets.{SamePackets};

use crate::course::Course;
use crate::emulating::Emulation;
use crate::refilling::Refill;
use base_words::{MoveKind, Ppn, ProcId, TrapCause, VcpuId};
use guest_devs::DevAct;

/// The entry of the guest's journal that was made for a trap, or why there is none.
#[derive(Clone, Copy, Debug, PartialEq, Eq)]
pub enum Entry {
    /// The processor's TLB got a half.
    Refill,
    /// The monitor made a step.
    Emulate,
    /// No entry yet, and nothing has changed: the step at hand stores to a register of the device page, and this act, with the rest of
    /// the step, is left to the caller.
    Left(DevAct),
    /// No entry, and nothing has changed: the access at hand is on this page, which has a move that isn't over.
    Waits(Ppn),
    /// No entry yet, and nothing has changed: the store at hand is on this page, which needs this move first.
    Needs(Ppn, MoveKind),
    /// No entry yet, and nothing has changed: the step at hand reached this page by a frame of a failed cell, and the page has to be
    /// collapsed first.
    Lost(Ppn),
}

impl Course {
    /// Serves a trap of the virtual processor that is loaded on a processor: gives the half for which the processor trapped, or makes the
    /// step by the monitor's hand. It takes no memory.
    #[cold]
    #[inline(never)]
    pub fn serve(&mut self, processor: ProcId, vcpu: VcpuId, cause: TrapCause) -> Entry
        requires sound { IsSound self.old }
        requires may { MayStep (state_of self.old) processor.0 vcpu.0 }
        requires traps { TrapsFor (state_of self.old) processor.0 vcpu.0 cause }
        requires room { 0 < self.old.devs.print_room }
        ensures sound { IsSound self.new }
        ensures enters { Enters (state_of self.old) processor.0 vcpu.0 (state_of self.new) result }
        ensures uses_none { result ≡ Emulate → UsesNoPage (state_of self.old) vcpu.0 }
        ensures same { StaysWithout result self.old self.new }
        ensures goes_on { GoesOnAfter result (state_of self.new) }
        ensures print_room { self.old.devs.print_room ≤ self.new.devs.print_room + 1 }
        ensures send_room { self.new.devs.send_room ≡ self.old.devs.send_room }
        ensures room { self.new.pmap.room ≡ self.old.pmap.room }
        ensures cells { self.new.sent_from ≡ self.old.sent_from }
        ensures skips { self.new.skips ≡ self.old.skips }
        ensures packets { SamePackets self.old self.new }
    {
        match self.refill(processor, vcpu, cause) {
            Refill::Filled => Entry::Refill,
            Refill::Waits(page) => Entry::Waits(page),
            Refill::Needs(page, kind) => Entry::Needs(page, kind),
            Refill::Lost(page) => Entry::Lost(page),
            Refill::Denied => match self.emulate(processor, vcpu, cause) {
                Emulation::Made => Entry::Emulate,
                Emulation::Left(act) => Entry::Left(act),
            },
        }
    }
}
