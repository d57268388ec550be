//! Steps that a processor makes by itself, one after the other.
ghost use Rattle.std.specs.Prelude.{◌≡◌, ◌≤◌, ◌<◌, length, None, is_some};
ghost use Rattle.base_words.specs.declared.trap.DataAccess.TheVariants.{NoData};
ghost use Rattle.private_machine.specs.RegisterPage.{has_page};
ghost use Rattle.isolation_law.specs.GuestState.{due_on};
ghost use Rattle.isolation_law.specs.Phases.{GoesOn, Runs};
ghost use Rattle.guest_course.specs.CourseView.{state_of};
ghost use Rattle.guest_course.specs.CourseRules.{IsSound};
ghost use Rattle.guest_course.specs.StepCalls.{Executes, MayStep, StepsTo, StopsAt};
ghost use Rattle.guest_course.specs.Packets.{SamePackets};

use crate::course::Course;
use crate::window::Window;
use base_words::{DataAccess, HwStep, ProcId, VcpuId};
use guest_devs::quiet_steps;

/// How many steps a processor made by itself, and how the last one came out: the last of these, or the one behind them, which trapped.
#[derive(Clone, Copy, Debug, PartialEq, Eq)]
pub struct Steps {
    pub made: u64,
    pub last: HwStep,
}

impl Course {
    /// Makes steps of the virtual processor that is loaded on a processor, through the processor's TLB, until one traps, a choice of the policy
    /// is due there, or there were so many. Between two of them only that is asked: that the guest goes on, what is loaded, that it hasn't
    /// halted, what room there is and what has come in stay in a step that the processor makes by itself.
    pub fn steps(&mut self, processor: ProcId, vcpu: VcpuId, most: u64) -> Steps
        requires sound { IsSound self.old }
        requires may { MayStep (state_of self.old) processor.0 vcpu.0 }
        requires some { 0 < most }
        ensures sound { IsSound self.new }
        ensures few { result.made ≤ most }
        ensures came { StepsTo result.made (state_of self.old) processor.0 vcpu.0 (state_of self.new) result.last }
        ensures stops { StopsAt most result.made (state_of self.new) processor.0 result.last }
        ensures goes_on { GoesOn (state_of self.new) }
        ensures runs { Runs (state_of self.new) processor.0 vcpu.0 }
        ensures print_room { self.new.devs.print_room ≡ self.old.devs.print_room }
        ensures send_room { self.new.devs.send_room ≡ self.old.devs.send_room }
        ensures room { self.new.pmap.room ≡ self.old.pmap.room }
        ensures cells { self.new.sent_from ≡ self.old.sent_from }
        ensures skips { self.new.skips ≡ self.old.skips }
        ensures packets { SamePackets self.old self.new }
    {
        if self.is_paged() {
            self.burst(processor, vcpu, most, true)
        } else {
            self.burst(processor, vcpu, most, false)
        }
    }

    /// The same; `paged` tells whether the guest has register pages.
    #[inline(always)]
    fn burst(&mut self, processor: ProcId, vcpu: VcpuId, most: u64, paged: bool) -> Steps
        requires sound { IsSound self.old }
        requires paged { paged ≡ has_page self.old.around.profile }
        requires may { MayStep (state_of self.old) processor.0 vcpu.0 }
        requires some { 0 < most }
        ensures sound { IsSound self.new }
        ensures few { result.made ≤ most }
        ensures came { StepsTo result.made (state_of self.old) processor.0 vcpu.0 (state_of self.new) result.last }
        ensures stops { StopsAt most result.made (state_of self.new) processor.0 result.last }
        ensures goes_on { GoesOn (state_of self.new) }
        ensures runs { Runs (state_of self.new) processor.0 vcpu.0 }
        ensures print_room { self.new.devs.print_room ≡ self.old.devs.print_room }
        ensures send_room { self.new.devs.send_room ≡ self.old.devs.send_room }
        ensures room { self.new.pmap.room ≡ self.old.pmap.room }
        ensures cells { self.new.sent_from ≡ self.old.sent_from }
        ensures skips { self.new.skips ≡ self.old.skips }
        ensures packets { SamePackets self.old self.new }
    {
        let is_due = self.due[processor.0 as usize].is_some();
        let limit = if is_due { 1 } else { most };
        let mut made = 0;
        let mut quiet = 0;
        let mut window = Window::new(&self.vcpus[vcpu.0 as usize]);
        while made < limit {
            if quiet == 0 {
                quiet = quiet_steps(&self.vcpus, &self.devs, vcpu);
            }
            let ahead = self.run_ahead(
                processor,
                vcpu,
                paged,
                quiet,
                limit - made - 1,
                &mut window,
            );
            made += ahead;
            quiet -= ahead;
            let last = self.step_noted(processor, vcpu, paged, quiet > 0, &mut window);
            quiet = quiet.saturating_sub(1);
            let HwStep::Direct(access) = last else {
                return Steps { made, last };
            };
            made += 1;
            if made == limit || self.is_chosen(processor, access.data) {
                return Steps { made, last };
            }
        }
        unreachable!()
    }

    /// Whether a choice of the policy is due on a processor after a step with this data access, before which none was.
    #[inline(always)]
    fn is_chosen(&self, processor: ProcId, access: DataAccess) -> bool
        requires there { processor.0 < length self.now.due.items }
        requires none { access ≡ NoData → due_on (state_of self.now) processor.0 ≡ None }
        ensures { result ≡ is_some (due_on (state_of self.now) processor.0) }
    {
        match access {
            DataAccess::NoData => false,
            DataAccess::Load { .. } | DataAccess::Store { .. } => {
                self.due[processor.0 as usize].is_some()
            }
        }
    }

    /// One step of the virtual processor that is loaded on a processor, through the processor's TLB. A trap changes nothing.
    pub fn step(&mut self, processor: ProcId, vcpu: VcpuId) -> HwStep
        requires sound { IsSound self.old }
        requires may { MayStep (state_of self.old) processor.0 vcpu.0 }
        ensures sound { IsSound self.new }
        ensures executes { Executes (state_of self.old) processor.0 vcpu.0 (state_of self.new) result }
        ensures goes_on { GoesOn (state_of self.new) }
        ensures runs { Runs (state_of self.new) processor.0 vcpu.0 }
        ensures print_room { self.new.devs.print_room ≡ self.old.devs.print_room }
        ensures send_room { self.new.devs.send_room ≡ self.old.devs.send_room }
        ensures room { self.new.pmap.room ≡ self.old.pmap.room }
        ensures cells { self.new.sent_from ≡ self.old.sent_from }
        ensures skips { self.new.skips ≡ self.old.skips }
        ensures packets { SamePackets self.old self.new }
    {
        self.steps(processor, vcpu, 1).last
    }
}
