//! What holds of acts and of open moves, for callers.
ghost use Rattle.std.specs.Prelude.{◌≡◌, ℕ, true, List, Some, slice_set};
ghost use Rattle.base_words.specs.Membership.{HasNone};
ghost use Rattle.private_machine.specs.Backing.{Move, Page, page_at};
ghost use Rattle.guest_devs.specs.declared.act.DevAct.{DevAct};
ghost use Rattle.pmap_table.specs.Tracking.{is_ready, HoldsNowhere};
ghost use Rattle.isolation_law.specs.CellFailure.{end_by};
ghost use Rattle.isolation_law.specs.EndRows.{ended, takes};
ghost use Rattle.isolation_law.specs.GuestState.{GuestState};
ghost use Rattle.isolation_law.specs.StepAct.{at_hand};
ghost use Rattle.guest_course.specs.Acting.{act_of};
ghost use Rattle.guest_course.specs.EmulateCalls.{LeavesAct};
ghost use Rattle.guest_course.specs.FailCalls.{EndsBy, FailsSo};

/// What an act does with a page that is left is what the step at hand does.
pub fn acts_are_at_hand()
    ensures { (s t : GuestState) (p v : ℕ) (act : DevAct) → LeavesAct s p v act t → at_hand s v ≡ act_of s v act }
{}

/// Where no page is ready, a page with a move for which nobody waits is being taken shared.
pub fn ready_pages_are_taken()
    ensures { (pages : List Page) (q : ℕ) (m : Move) → HoldsNowhere is_ready pages → (page_at pages q).move ≡ Some m → HasNone m.waiting → takes m.change ≡ true }
{}

/// Where a cell fails that a guest uses which goes on, the guest ends by it, once its pages are let go that are being taken shared.
pub fn used_cells_end()
    ensures { (s t : GuestState) (cell : ℕ) → EndsBy s cell → t ≡ record (ended (end_by cell) s) { dead = slice_set s.dead cell true } → FailsSo s cell t }
{}
