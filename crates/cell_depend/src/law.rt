//! What the counters are to the rows. These calls do nothing: a caller learns what they ensure.
ghost use Rattle.std.specs.Prelude.{◌≡◌, ◌≢◌, ◌↔◌, ℕ, ◌+◌, ◌<◌, ◌≤◌, List, [], ◌∷◌, ◌++◌, length};
ghost use Rattle.std.specs.List.Sorted.{IsPermutation};
ghost use Rattle.base_words.specs.declared.frame.Shape.{Shape};
ghost use Rattle.base_words.specs.declared.ids.CellId.{CellId};
ghost use Rattle.base_words.specs.declared.ids.FrameNo.{FrameNo};
ghost use Rattle.cell_depend.specs.CellUse.{Rows, IsUsed, frames_in, is_cell, lies_in, one_if, use_from_rows, vcpus_in};
ghost use Rattle.cell_depend.specs.Counters.{UsesState, AreCounts, count_at, total, with_frame, with_vcpu, without_frame, without_frames, without_vcpu};
ghost use Rattle.cell_depend.specs.Events.{UseEvent, Kept, IsCounted, IsUncounted, Joins, Leads, Leaves, at_start};

/// Wherever a list of events leads from the start, each counter is the plain count of the rows.
pub fn counters_equal_rows()
    ensures { (shape : Shape) (cells : ℕ) (events : List UseEvent) (t : Kept) → Leads shape (at_start cells) events t → AreCounts shape t.rows t.uses }
{}

/// One frame more raises the plain count of its cell by one, and no other; one that leaves lowers it.
pub fn frames_are_counted()
    ensures behind { (shape : Shape) (cell : ℕ) (frames : List FrameNo) (frame : FrameNo)
        → frames_in shape cell (frames ++ frame ∷ []) ≡ frames_in shape cell frames + one_if (lies_in shape cell frame) }
    ensures anywhere { (shape : Shape) (cell : ℕ) (frames rest : List FrameNo) (frame : FrameNo) → Leaves frame frames rest
        → frames_in shape cell frames ≡ frames_in shape cell rest + one_if (lies_in shape cell frame) }
    ensures few { (shape : Shape) (cell : ℕ) (frames : List FrameNo) → frames_in shape cell frames ≤ length frames }
{}

/// One loaded virtual processor more raises the plain count of its processor's cell by one, and no other.
pub fn vcpus_are_counted()
    ensures behind { (cell : ℕ) (loaded : List CellId) (at : CellId)
        → vcpus_in cell (loaded ++ at ∷ []) ≡ vcpus_in cell loaded + one_if (is_cell cell at) }
    ensures anywhere { (cell : ℕ) (loaded rest : List CellId) (at : CellId) → Leaves at loaded rest
        → vcpus_in cell loaded ≡ vcpus_in cell rest + one_if (is_cell cell at) }
    ensures few { (cell : ℕ) (loaded : List CellId) → vcpus_in cell loaded ≤ length loaded }
{}

/// The counters follow a frame that is taken; one of a cell that isn't counted is nothing to them.
pub fn frame_taken()
    ensures behind { (shape : Shape) (rows : Rows) (uses : UsesState) (frame : FrameNo) (cell : CellId)
        → AreCounts shape rows uses → IsCounted shape uses frame cell
        → AreCounts shape (record rows { frames = rows.frames ++ frame ∷ [] }) (with_frame uses cell.0) }
    ensures anywhere { (shape : Shape) (rows : Rows) (uses : UsesState) (frame : FrameNo) (cell : CellId) (frames : List FrameNo)
        → AreCounts shape rows uses → IsCounted shape uses frame cell → Joins frame rows.frames frames
        → AreCounts shape (record rows { frames = frames }) (with_frame uses cell.0) }
    ensures elsewhere { (shape : Shape) (rows : Rows) (uses : UsesState) (frame : FrameNo) (cell : CellId) (frames : List FrameNo)
        → AreCounts shape rows uses → IsUncounted shape uses frame cell → Joins frame rows.frames frames
        → AreCounts shape (record rows { frames = frames }) uses }
{}

/// The counters follow a frame that is given back, wherever it stood; the count of its cell was above 0. One of a cell that isn't
/// counted is nothing to them.
pub fn frame_given_back()
    ensures some { (shape : Shape) (rows : Rows) (uses : UsesState) (frame : FrameNo) (cell : CellId) (rest : List FrameNo)
        → AreCounts shape rows uses → IsCounted shape uses frame cell → Leaves frame rows.frames rest
        → 0 < (count_at uses cell.0).frames }
    ensures lowered { (shape : Shape) (rows : Rows) (uses : UsesState) (frame : FrameNo) (cell : CellId) (rest : List FrameNo)
        → AreCounts shape rows uses → IsCounted shape uses frame cell → Leaves frame rows.frames rest
        → AreCounts shape (record rows { frames = rest }) (without_frame uses cell.0) }
    ensures elsewhere { (shape : Shape) (rows : Rows) (uses : UsesState) (frame : FrameNo) (cell : CellId) (rest : List FrameNo)
        → AreCounts shape rows uses → IsUncounted shape uses frame cell → Leaves frame rows.frames rest
        → AreCounts shape (record rows { frames = rest }) uses }
{}

/// The counters follow all frames, which are given back at once.
pub fn all_frames_given_back()
    ensures { (shape : Shape) (rows : Rows) (uses : UsesState) → AreCounts shape rows uses
        → AreCounts shape (record rows { frames = [] }) (without_frames uses) }
{}

/// The counters follow a virtual processor that is loaded on a processor of a cell; where the cell isn't counted it is nothing to
/// them.
pub fn vcpu_loaded()
    ensures behind { (shape : Shape) (rows : Rows) (uses : UsesState) (cell : CellId)
        → AreCounts shape rows uses → cell.0 < length uses.counts
        → AreCounts shape (record rows { loaded = rows.loaded ++ cell ∷ [] }) (with_vcpu uses cell.0) }
    ensures anywhere { (shape : Shape) (rows : Rows) (uses : UsesState) (cell : CellId) (loaded : List CellId)
        → AreCounts shape rows uses → cell.0 < length uses.counts → Joins cell rows.loaded loaded
        → AreCounts shape (record rows { loaded = loaded }) (with_vcpu uses cell.0) }
    ensures elsewhere { (shape : Shape) (rows : Rows) (uses : UsesState) (cell : CellId) (loaded : List CellId)
        → AreCounts shape rows uses → length uses.counts ≤ cell.0 → Joins cell rows.loaded loaded
        → AreCounts shape (record rows { loaded = loaded }) uses }
{}

/// The counters follow a virtual processor that is unloaded; the count of its processor's cell was above 0. Where the cell isn't
/// counted it is nothing to them.
pub fn vcpu_unloaded()
    ensures some { (shape : Shape) (rows : Rows) (uses : UsesState) (cell : CellId) (rest : List CellId)
        → AreCounts shape rows uses → cell.0 < length uses.counts → Leaves cell rows.loaded rest
        → 0 < (count_at uses cell.0).vcpus }
    ensures lowered { (shape : Shape) (rows : Rows) (uses : UsesState) (cell : CellId) (rest : List CellId)
        → AreCounts shape rows uses → cell.0 < length uses.counts → Leaves cell rows.loaded rest
        → AreCounts shape (record rows { loaded = rest }) (without_vcpu uses cell.0) }
    ensures elsewhere { (shape : Shape) (rows : Rows) (uses : UsesState) (cell : CellId) (rest : List CellId)
        → AreCounts shape rows uses → length uses.counts ≤ cell.0 → Leaves cell rows.loaded rest
        → AreCounts shape (record rows { loaded = rest }) uses }
{}

/// The order in which the rows stand is nothing to the counters.
pub fn rows_reordered()
    ensures { (shape : Shape) (rows other : Rows) (uses : UsesState) → AreCounts shape rows uses
        → IsPermutation rows.frames other.frames → IsPermutation rows.loaded other.loaded → AreCounts shape other uses }
{}

/// A count of a cell is above 0 exactly where the guest uses the cell: the plain count, and that of the counters.
pub fn used_where_counted()
    ensures plain { (shape : Shape) (rows : Rows) (cell : CellId) → (use_from_rows shape cell.0 rows ≢ 0) ↔ IsUsed shape rows cell }
    ensures kept { (shape : Shape) (rows : Rows) (uses : UsesState) (cell : CellId) → AreCounts shape rows uses → cell.0 < length uses.counts
        → (total (count_at uses cell.0) ≢ 0) ↔ IsUsed shape rows cell }
{}
