//! Many steps at once.
ghost use Rattle.std.specs.Prelude.{◌≡◌};
ghost use Rattle.private_machine.specs.Ticking.{ticking_often};

use crate::vcpu::Vcpu;

impl Vcpu {
    /// So many steps are over: coprocessor 0 ticks, and the steps are counted.
    #[inline]
    pub fn tick_by(&mut self, steps: u64)
        ensures { self.new ≡ ticking_often steps self.old }
    {
        self.cp0.tick_by(steps);
        self.steps = self.steps.saturating_add(steps);
    }
}
