//! What entries and journals tell of moves that weren't begun and of ends: for the notes of what calls did.
ghost use Rattle.std.specs.Prelude.{◌≡◌, ℕ, List, [], true, Some, flat_map};
ghost use Rattle.base_words.specs.declared.events.End.{End};
ghost use Rattle.base_words.specs.declared.events.Event.{Event};
ghost use Rattle.isolation_law.specs.GuestState.{GuestState, is_dead};
ghost use Rattle.isolation_law.specs.MachineEvent.{Row};
ghost use Rattle.isolation_law.specs.Run.{Run};
ghost use Rattle.isolation_law.specs.CellFailure.{end_by, failure_of, EndsAs};
ghost use Rattle.isolation_law.specs.EntryTells.{skip_of, AddsSkips};
ghost use Rattle.isolation_law.specs.Start.{Boot, start};

/// A skip adds the next entry to the list of skips, and no other entry changes that. An end stays. A guest comes to end by a cell
/// at its failure alone.
pub fn entries_tell()
    ensures skips { (s t : GuestState) (e : Event) → Row s e t → AddsSkips s.skips (skip_of e) t.skips }
    ensures ends { (s t : GuestState) (e : Event) (end : End) → Row s e t → s.end ≡ Some end → t.end ≡ Some end }
    ensures outlives { (s t : GuestState) (e : Event) (c : ℕ) → (EndsAs s (end_by c) → ⊥) → Row s e t → EndsAs t (end_by c) → e ≡ failure_of c }
{}

/// In a run a journal tells of each skip once, in their order; and a guest that ends by a cell has it dead.
pub fn journals_tell()
    ensures skips { (b : Boot) (journal : List Event) (t : GuestState) → Run (start b) journal t → AddsSkips [] (flat_map skip_of journal) t.skips }
    ensures ended { (b : Boot) (journal : List Event) (t : GuestState) (c : ℕ) → Run (start b) journal t → EndsAs t (end_by c) → is_dead t c ≡ true }
{}
