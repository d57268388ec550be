//! Laws of notes, for callers: a function without a body, whose contract is the law.
ghost use Rattle.std.specs.Prelude.{◌≡◌, ◌≢◌, ℕ, List, [], ◌∷◌, ◌++◌};
ghost use Rattle.shootdown.specs.Notes.{sided, with_side};
ghost use Rattle.shootdown.specs.declared.notes.Note.{Note};
ghost use Rattle.shootdown.specs.declared.view.SidedNote.{SidedNote};

/// Which notes are with a guest or a processor: of two lists, one behind the other, those of the first and then those
/// of the second; of one note, that note or none.
#[inline]
pub fn notes_by_side()
    ensures joined { (side : ℕ) (first second : List SidedNote) →
        with_side side (first ++ second) ≡ with_side side first ++ with_side side second }
    ensures own { (side : ℕ) (note : Note) → with_side side (sided side note ∷ []) ≡ note ∷ [] }
    ensures others { (side other : ℕ) (note : Note) → other ≢ side → with_side side (sided other note ∷ []) ≡ [] }
{}
