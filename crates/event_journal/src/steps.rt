//! How many entries of a kind a journal has. Each of these calls goes over the runs.
ghost use Rattle.std.specs.Prelude.{◌≡◌, Bool, count_by};
ghost use Rattle.base_words.specs.declared.events.Event.{Event};
ghost use Rattle.event_journal.specs.Counting.{AnswersBy};
ghost use Rattle.event_journal.specs.Steps.{is_step_of, steps_in};

use crate::Journal;
use base_words::{Event, ProcId, VcpuId};

/// Whether an entry is a step of a virtual processor on a processor.
fn is_step_of(event: Event, processor: ProcId, vcpu: VcpuId) -> bool
    ensures { result ≡ is_step_of processor.0 vcpu.0 event }
{
    match event {
        Event::Direct(on, of) | Event::Emulate(on, of) => on == processor && of == vcpu,
        _ => false,
    }
}

impl Journal {
    /// How many entries pass a test, which is asked once for each run.
    pub fn count_of<F: Fn(Event) -> bool>(&self, test: F) -> u64
        requires { F.IsAlwaysCallable test }
        ensures { (passes : Event → Bool) → AnswersBy (F.post test) passes → result ≡ count_by passes self.now.entries }
    {
        let mut count = 0;
        for run in self.as_runs() {
            if test(run.event) {
                count += run.count;
            }
        }
        count
    }

    /// How many steps a virtual processor made on a processor. It goes over the runs.
    pub fn steps_of(&self, processor: ProcId, vcpu: VcpuId) -> u64
        ensures { result ≡ steps_in processor.0 vcpu.0 self.now.entries }
    {
        self.count_of(|event| is_step_of(event, processor, vcpu))
    }
}
