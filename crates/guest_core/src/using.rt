//! Which cells a guest uses, counted as it goes.
ghost use Rattle.std.specs.Prelude.{◌≡◌, ◌≢◌, ◌<◌, ◌≤◌, ◌*◌, ◌-◌, ◌^◌, ℕ, List, [], ◌∷◌, ◌++◌, All, IfOk, None, length, map};
ghost use Rattle.base_words.specs.Limits.{most_cells};
ghost use Rattle.base_words.specs.declared.frame.Frame.{Frame};
ghost use Rattle.cell_depend.specs.Counters.{AreCounts};
ghost use Rattle.private_machine.specs.Backing.{Copy};
ghost use Rattle.isolation_law.specs.CellUse.{uses as uses_cell};
ghost use Rattle.isolation_law.specs.GuestState.{GuestState, processor as processor_at};
ghost use Rattle.isolation_law.specs.LoadRows.{Loads, Unloads};
ghost use Rattle.isolation_law.specs.Surroundings.{cell_of_processor};
ghost use Rattle.guest_course.specs.CourseView.{state_of, surroundings};
ghost use Rattle.guest_course.specs.CourseRules.{AllStand, IsSound};
ghost use Rattle.guest_core.specs.GuestView.{guest_of};
ghost use Rattle.guest_core.specs.Kept.{IsKept};
ghost use Rattle.guest_core.specs.Using.{AreUses, CountsCopies};

use crate::parts::Parts;
use base_words::{CellId, FrameList, FrameNo, MOST_CELLS, ProcId, Shape};
use cell_depend::{
    Uses, counters_equal_rows, frame_given_back, frame_taken, frames_are_counted, vcpu_loaded,
    vcpu_unloaded, vcpus_are_counted,
};
use guest_course::{Around, Course};
use isolation_law::uses_change;
use std::alloc::{AllocError, Global};

/// So many cells are counted, as a machine has no more.
const CELLS: u8 = MOST_CELLS as u8;

/// Counters of these frames, each of the cell in which it lies, with nothing loaded.
pub(crate) fn count_frames(
    alloc: Global,
    frames: &FrameList,
    shape: &Shape,
) -> Result<Uses, AllocError>
    requires within { All (λ (f : Frame). f.number.0 < shape.now.nodes * shape.now.frames) frames.now }
    requires few { length frames.now ≤ 2048 }
    ensures cells { IfOk result (λ uses. length uses.counts ≡ most_cells) }
    ensures counts { IfOk result (AreCounts shape.now (record { frames = map (λ (f : Frame). f.number) frames.now; loaded = [] })) }
{
    counters_equal_rows();
    frame_taken();
    frames_are_counted();
    let mut uses = Uses::new(alloc, CELLS)?;
    for frame in frames.as_slice() {
        let cell = shape.cell_of(frame.number);
        if cell.0 < CELLS {
            uses.add_frame(cell);
        }
    }
    Ok(uses)
}

/// Counts a frame that was taken.
pub(crate) fn count_frame(uses: &mut Uses, around: &Around, frame: FrameNo)
    requires within { frame.0 < around.now.site.shape.nodes * around.now.site.shape.frames }
    requires used { (s : GuestState) × (copies : List Copy) × (s.around ≡ surroundings around.now) × (length copies < 2 ^ 64 - 1) × CountsCopies s copies uses.old }
    ensures { (s : GuestState) (copies : List Copy) (c : Copy) → s.around ≡ surroundings around.now → c.frame ≡ frame.0 → CountsCopies s copies uses.old → CountsCopies s (c ∷ copies) uses.new }
{
    frame_taken();
    frames_are_counted();
    let cell = around.site.shape.cell_of(frame);
    if cell.0 < CELLS {
        uses.add_frame(cell);
    }
}

/// Counts a frame no more that ties the guest to its cell no longer.
pub(crate) fn count_frame_no_more(uses: &mut Uses, around: &Around, frame: FrameNo)
    requires within { frame.0 < around.now.site.shape.nodes * around.now.site.shape.frames }
    requires used { (s : GuestState) × (copies : List Copy) × (c : Copy) × (s.around ≡ surroundings around.now) × (c.frame ≡ frame.0) × CountsCopies s (copies ++ c ∷ []) uses.old }
    ensures { (s : GuestState) (copies : List Copy) (c : Copy) → s.around ≡ surroundings around.now → c.frame ≡ frame.0 → CountsCopies s (copies ++ c ∷ []) uses.old → CountsCopies s copies uses.new }
{
    frame_given_back();
    frames_are_counted();
    let cell = around.site.shape.cell_of(frame);
    if cell.0 < CELLS {
        uses.drop_frame(cell);
    }
}

/// The cell of a processor.
pub(crate) fn cell_of(course: &Course, processor: ProcId) -> CellId
    requires is_processor { processor.0 < length course.now.places.items }
    requires places { AllStand (surroundings course.now.around) 0 course.now.places.items }
    ensures { result.0 ≡ cell_of_processor (surroundings course.now.around) processor.0 }
{
    let node = course.places[processor.0 as usize].node;
    course.around.site.shape.cells.as_slice()[node.0 as usize]
}

/// Counts what is about to be loaded on a processor.
pub(crate) fn count_load(uses: &mut Uses, course: &Course, processor: ProcId)
    requires sound { IsSound course.now }
    requires used { AreUses (state_of course.now) uses.old }
    requires is_processor { processor.0 < length course.now.places.items }
    ensures { (v : ℕ) (t : GuestState) → Loads (state_of course.now) processor.0 v t → AreUses t uses.new }
{
    vcpu_loaded();
    vcpus_are_counted();
    let cell = cell_of(course, processor);
    if cell.0 < CELLS {
        uses.add_vcpu(cell);
    }
}

/// Counts no more what is about to be unloaded from a processor.
pub(crate) fn count_unload(uses: &mut Uses, course: &Course, processor: ProcId)
    requires sound { IsSound course.now }
    requires used { AreUses (state_of course.now) uses.old }
    requires is_processor { processor.0 < length course.now.places.items }
    requires loaded { (processor_at (state_of course.now) processor.0).loaded ≢ None }
    ensures { (t : GuestState) → Unloads (state_of course.now) processor.0 t → AreUses t uses.new }
{
    uses_change();
    vcpu_unloaded();
    let cell = cell_of(course, processor);
    if cell.0 < CELLS {
        uses.drop_vcpu(cell);
    }
}

impl Parts {
    /// Whether the guest uses a cell. One that has ended uses none, though something may be loaded still.
    #[inline]
    pub(crate) fn uses(&self, cell: CellId) -> bool
        requires kept { IsKept self.now }
        requires cell { cell.0 < most_cells }
        ensures { result ≡ uses_cell (guest_of self.now).state cell.0 }
    {
        self.course.ended.is_none() && self.uses.uses(cell)
    }
}
