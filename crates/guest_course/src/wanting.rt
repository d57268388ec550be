//! For which steps memory may be wanting, for callers.
ghost use Rattle.std.specs.Prelude.{ℕ};
ghost use Rattle.guest_devs.specs.declared.act.DevAct.{DevAct};
ghost use Rattle.isolation_law.specs.GuestState.{GuestState};
ghost use Rattle.isolation_law.specs.StepAct.{at_hand};
ghost use Rattle.guest_course.specs.EmulateCalls.{LeavesAct};
ghost use Rattle.guest_course.specs.Wanting.{MayWant, TakesMemory};

/// An act that is left and for which memory may be wanting is, as the step at hand, a page that goes into a block or a packet that
/// is sent.
pub fn acts_take_memory()
    ensures { (s t : GuestState) (p v : ℕ) (act : DevAct) → LeavesAct s p v act t → MayWant s v act → TakesMemory (at_hand s v) }
{}
