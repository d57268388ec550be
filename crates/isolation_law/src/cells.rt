//! Cells that fail, and the end by one.
ghost use Rattle.std.specs.Prelude.{◌≡◌, ◌<◌, ℕ, if◌then◌else◌, true, false, List, count_by, length, Some, None, ◌∷◌, ◌++◌};
ghost use Rattle.base_words.specs.Membership.{Has};
ghost use Rattle.base_words.specs.declared.events.End.{End};
ghost use Rattle.base_words.specs.declared.events.Event.{Event};
ghost use Rattle.base_words.specs.declared.events.Event.TheVariants.{Load};
ghost use Rattle.base_words.specs.declared.ids.ProcId.{ProcId};
ghost use Rattle.base_words.specs.declared.ids.VcpuId.{VcpuId};
ghost use Rattle.private_machine.specs.Backing.{Copy};
ghost use Rattle.isolation_law.specs.Surroundings.{cell_of_frame, cell_of_processor};
ghost use Rattle.isolation_law.specs.GuestState.{GuestState, page, processor, is_dead};
ghost use Rattle.isolation_law.specs.CellUse.{used_frames, uses};
ghost use Rattle.isolation_law.specs.Phases.{GoesOn, owed};
ghost use Rattle.isolation_law.specs.EndRows.{CellFailsIn, Ends};
ghost use Rattle.isolation_law.specs.MachineEvent.{Row};
ghost use Rattle.isolation_law.specs.Run.{Run};
ghost use Rattle.isolation_law.specs.LiveCells.{UsesLive};
ghost use Rattle.isolation_law.specs.CellFailure.{end_by, failure_of, is_failure, EndsAs, FoundInUse};
ghost use Rattle.isolation_law.specs.Start.{Boot, start};

/// A cell that fails ends the guest exactly where it uses the cell. No other entry makes an end by a cell due, and an end that is
/// due is the one that comes.
pub fn cell_failure()
    ensures used { (s t : GuestState) (c : ℕ) → GoesOn s → CellFailsIn s c t → uses s c ≡ true → owed t ≡ Some (end_by c) }
    ensures unused { (s t : GuestState) (c : ℕ) → GoesOn s → CellFailsIn s c t → uses s c ≡ false → GoesOn t }
    ensures alone { (s t : GuestState) (e : Event) (c : ℕ) → GoesOn s → Row s e t → owed t ≡ Some (end_by c) → (e ≡ failure_of c) × (uses s c ≡ true) }
    ensures due { (s t : GuestState) (e : Event) (end : End) → EndsAs s end → Row s e t → EndsAs t end }
    ensures comes { (s t : GuestState) (c : ℕ) → Ends s (end_by c) t → owed s ≡ Some (end_by c) }
{}

/// In a run: where a failure found its cell in use the guest ends by this cell or has to; and it ends so, or has to, only there.
pub fn ends_by_use()
    ensures then { (b : Boot) (before rest : List Event) (s m t : GuestState) (c : ℕ) → Run (start b) before s → GoesOn s → uses s c ≡ true → CellFailsIn s c m → Run m rest t → EndsAs t (end_by c) }
    ensures only { (b : Boot) (journal : List Event) (t : GuestState) (c : ℕ) → Run (start b) journal t → EndsAs t (end_by c) → FoundInUse (start b) journal c }
{}

/// A cell that has failed stays so, and only its failure makes it so, once; nothing is loaded in one. So a journal has as many
/// failures of a cell as its state tells.
pub fn failures_stay()
    ensures stays { (s t : GuestState) (e : Event) (c : ℕ) → Row s e t → is_dead s c ≡ true → is_dead t c ≡ true }
    ensures only { (s t : GuestState) (e : Event) (c : ℕ) → Row s e t → is_dead s c ≡ false → is_dead t c ≡ true → e ≡ failure_of c }
    ensures once { (s t : GuestState) (e : Event) (c : ℕ) → Row s e t → is_failure c e ≡ true → (is_dead s c ≡ false) × (is_dead t c ≡ true) }
    ensures no_load { (s t : GuestState) (p : ProcId) (v : VcpuId) → Row s (Load p v) t → is_dead s (cell_of_processor s.around p.0) ≡ false }
    ensures count { (b : Boot) (journal : List Event) (t : GuestState) (c : ℕ) → Run (start b) journal t → count_by (is_failure c) journal ≡ (if is_dead t c then 1 else 0) }
{}

/// While a guest goes on it uses no frame of a failed cell, so that each page's master lives; and it has nothing loaded there.
pub fn goes_on_alive()
    ensures used { (s : GuestState) (c : Copy) → UsesLive s → GoesOn s → Has (used_frames s) c → is_dead s (cell_of_frame s.around c.frame) ≡ false }
    ensures master { (s : GuestState) (q : ℕ) → UsesLive s → GoesOn s → q < length s.pages → is_dead s (cell_of_frame s.around (page s q).master.frame) ≡ false }
    ensures loaded { (s : GuestState) (p v : ℕ) → UsesLive s → GoesOn s → (processor s p).loaded ≡ Some v → is_dead s (cell_of_processor s.around p) ≡ false }
{}
