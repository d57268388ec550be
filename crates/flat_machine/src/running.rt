//! A run of steps of a virtual processor, before which nothing comes.
ghost use Rattle.std.specs.Prelude.{◌≡◌, ◌<◌, ◌≤◌, length, true, replicate};
ghost use Rattle.base_words.specs.declared.events.OwnEvent.TheVariants.{Step};
ghost use Rattle.private_machine.specs.PrivateRun.{private_run};
ghost use Rattle.flat_machine.specs.FlatView.{machine_of, IsSound};
ghost use Rattle.flat_machine.specs.Windows.{IsWindow};

use crate::machine::Machine;
use crate::quiet::run_at;
use crate::window::Window;
use base_words::VcpuId;
use guest_devs::quiet_steps;
use std::alloc::AllocError;

impl Machine {
    /// Where it isn't known whether anything comes, for how many steps nothing does. A virtual processor that has halted makes none.
    #[inline(always)]
    pub fn look_ahead(&mut self, vcpu: VcpuId, window: &mut Window) -> Result<(), AllocError>
        requires sound { IsSound self.old }
        requires there { vcpu.0 < length (machine_of self.old).vcpus }
        requires window { IsWindow (machine_of self.old) vcpu.0 window.old }
        requires ready { 0 < window.old.quiet → self.old.ready ≡ true }
        ensures sound { IsSound self.new }
        ensures same { machine_of self.new ≡ machine_of self.old }
        ensures window { IsWindow (machine_of self.new) vcpu.0 window.new }
        ensures ready { 0 < window.new.quiet → self.new.ready ≡ true }
    {
        if window.quiet > 0 || self.vcpu(vcpu).halted {
            return Ok(());
        }
        self.make_ready()?;
        window.quiet = quiet_steps(&self.vcpus, &self.devs, vcpu);
        Ok(())
    }

    /// Steps of a virtual processor, before which nothing comes, as long as each touches nothing but registers and memory: no more than
    /// `most`, and how many.
    #[inline(always)]
    pub fn run_ahead(&mut self, vcpu: VcpuId, most: u64, window: &mut Window) -> u64
        requires sound { IsSound self.old }
        requires there { vcpu.0 < length (machine_of self.old).vcpus }
        requires window { IsWindow (machine_of self.old) vcpu.0 window.old }
        requires ready { 0 < window.old.quiet → self.old.ready ≡ true }
        ensures sound { IsSound self.new }
        ensures count { length (machine_of self.new).vcpus ≡ length (machine_of self.old).vcpus }
        ensures few { result ≤ most }
        ensures made { machine_of self.new ≡ private_run (machine_of self.old) (replicate result (Step vcpu)) }
        ensures window { IsWindow (machine_of self.new) vcpu.0 window.new }
        ensures ready { 0 < window.new.quiet → self.new.ready ≡ true }
    {
        if window.quiet == 0 {
            return 0;
        }
        let is_open = self.is_open(vcpu);
        let made = run_at(
            &mut self.vcpus,
            vcpu.0 as usize,
            &mut self.memory,
            self.pages,
            &mut self.memo,
            is_open,
            &mut window.pages,
            most.min(window.quiet),
        );
        window.quiet -= made;
        made
    }
}
