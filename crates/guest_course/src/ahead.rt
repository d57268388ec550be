//! Steps that leave nothing to note.
ghost use Rattle.std.specs.Prelude.{◌≡◌, ◌<◌, ◌≤◌, ◌-◌, ◌&&◌, not, None};
ghost use Rattle.private_machine.specs.RegisterPage.{has_page};
ghost use Rattle.guest_devs.specs.Quiet.{AreQuiet};
ghost use Rattle.isolation_law.specs.GuestState.{due_on};
ghost use Rattle.guest_course.specs.CourseView.{state_of};
ghost use Rattle.guest_course.specs.CourseRules.{IsSound};
ghost use Rattle.guest_course.specs.StepCalls.{MayStep, StepsMany};
ghost use Rattle.guest_course.specs.Windows.{IsWindowOn};

use crate::course::Course;
use crate::hardware::run_at;
use crate::noting::Notes;
use crate::window::Window;
use base_words::{ProcId, VcpuId};
use guest_devs::quiet_steps_pass;
use isolation_law::{halves_serve, page_words_are_taken, row_keeps};

/// Whether the register page of what runs is open.
#[inline(always)]
fn is_open(paged: bool, window: &Window) -> bool
    ensures { result ≡ (paged && not window.now.user) }
{
    paged && !window.user
}

impl Course {
    /// Makes steps of the virtual processor that is loaded on a processor, through the processor's TLB, before which nothing comes, as long as
    /// each leaves nothing to note: no more than `most`, and how many. `paged` tells whether the guest has register pages, and `window` is
    /// what steps go by.
    #[inline(never)]
    pub(crate) fn run_ahead(
        &mut self,
        processor: ProcId,
        vcpu: VcpuId,
        paged: bool,
        quiet: u64,
        most: u64,
        window: &mut Window,
    ) -> u64
        requires sound { IsSound self.old }
        requires paged { paged ≡ has_page self.old.around.profile }
        requires may { MayStep (state_of self.old) processor.0 vcpu.0 }
        requires due { 0 < most → due_on (state_of self.old) processor.0 ≡ None }
        requires quiet { AreQuiet quiet vcpu.0 self.old.vcpus.items self.old.devs.state.page }
        requires window { IsWindowOn self.old processor.0 vcpu.0 window.old }
        ensures same { self.new ≡ record self.old { vcpus = self.new.vcpus; pmap = self.new.pmap; memo = self.new.memo } }
        ensures few { result ≤ most }
        ensures less { result ≤ quiet }
        ensures sound { IsSound self.new }
        ensures may { MayStep (state_of self.new) processor.0 vcpu.0 }
        ensures steps { StepsMany result (state_of self.old) processor.0 vcpu.0 (state_of self.new) }
        ensures quiet { AreQuiet (quiet - result) vcpu.0 self.new.vcpus.items self.new.devs.state.page }
        ensures window { IsWindowOn self.new processor.0 vcpu.0 window.new }
        ensures room { self.new.pmap.room ≡ self.old.pmap.room }
    {
        quiet_steps_pass();
        row_keeps();
        page_words_are_taken();
        halves_serve();
        let place = &self.places[processor.0 as usize];
        let notes = Notes {
            place,
            counters: &self.counters,
        };
        run_at(
            &mut self.pmap,
            &self.dead,
            &self.around.site.shape,
            &mut self.vcpus,
            vcpu.0 as usize,
            is_open(paged, window),
            &place.tlb,
            &notes,
            &mut self.memo,
            window,
            most.min(quiet),
        )
    }
}
