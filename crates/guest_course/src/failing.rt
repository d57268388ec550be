//! Cells that fail, and the frames that lie in them.
ghost use Rattle.std.specs.Prelude.{◌≡◌, ◌<◌, false, length, slice_index, slice_index_or, map};
ghost use Rattle.base_words.specs.Limits.{most_cells};
ghost use Rattle.isolation_law.specs.EndRows.{CellFailsIn};
ghost use Rattle.isolation_law.specs.GuestState.{is_dead as is_dead_in};
ghost use Rattle.isolation_law.specs.Phases.{GoesOn};
ghost use Rattle.isolation_law.specs.Surroundings.{cell_of_frame, cell_of_node};
ghost use Rattle.guest_course.specs.CourseRules.{IsSound};
ghost use Rattle.guest_course.specs.CourseView.{surroundings, state_of};
ghost use Rattle.guest_course.specs.FailCalls.{Marks, MayOutlive};
ghost use Rattle.guest_course.specs.Failures.{dead_cells, lost_in};

use crate::course::Course;
use base_words::{CellId, CellSet, FrameNo, MOST_CELLS, NodeId, Shape};
use isolation_law::row_keeps;

/// Whether a cell has failed, of which a machine has so many at most.
#[inline]
fn has_failed(dead: &Option<CellSet>, cell: CellId) -> bool
    requires { length (dead_cells dead.now) ≡ most_cells }
    ensures { result ≡ slice_index_or (dead_cells dead.now) cell.0 false }
{
    match dead {
        Some(cells) => usize::from(cell.0) < MOST_CELLS && cells.has(cell),
        None => false,
    }
}

/// The cell of a node.
fn cell_at(shape: &Shape, node: u32) -> CellId
    ensures { result.0 ≡ slice_index (map (λ c. c.0) shape.now.cells) node }
{
    match shape.cells.as_slice().get(node as usize) {
        Some(cell) => *cell,
        None => CellId(0),
    }
}

/// Whether a frame lies in a cell that has failed.
#[inline]
pub(crate) fn is_lost(shape: &Shape, dead: &Option<CellSet>, frame: FrameNo) -> bool
    requires { length (dead_cells dead.now) ≡ most_cells }
    ensures { result ≡ lost_in shape.now dead.now frame.0 }
{
    dead.is_some() && has_failed(dead, cell_at(shape, frame.0 / shape.frames))
}

impl Course {
    /// The cell of a node.
    pub fn cell_of_node(&self, node: NodeId) -> CellId
        ensures { result.0 ≡ cell_of_node (surroundings self.now.around) node.0 }
    {
        cell_at(&self.around.site.shape, u32::from(node.0))
    }

    /// The cell in which a frame lies.
    pub(crate) fn cell_of(&self, frame: FrameNo) -> CellId
        ensures { result.0 ≡ cell_of_frame (surroundings self.now.around) frame.0 }
    {
        let shape = &self.around.site.shape;
        cell_at(shape, frame.0 / shape.frames)
    }

    /// Whether a cell has failed.
    #[inline]
    pub fn is_dead(&self, cell: CellId) -> bool
        requires { IsSound self.now }
        ensures { result ≡ is_dead_in (state_of self.now) cell.0 }
    {
        has_failed(&self.dead, cell)
    }

    /// The cells that have failed.
    pub fn dead_cells(&self) -> CellSet
        ensures { result ≡ (state_of self.now).dead }
    {
        match self.dead {
            Some(cells) => cells,
            None => CellSet::empty(),
        }
    }

    /// A cell fails. A guest that doesn't use it goes on, or has ended; one that uses it has to end by it at once.
    pub fn fail(&mut self, cell: CellId)
        requires sound { IsSound self.old }
        requires cell { cell.0 < most_cells }
        ensures marks { Marks self.old cell.0 self.new }
        ensures fails { MayOutlive (state_of self.old) cell.0 → CellFailsIn (state_of self.old) cell.0 (state_of self.new) }
        ensures sound { MayOutlive (state_of self.old) cell.0 → IsSound self.new }
        ensures goes_on { MayOutlive (state_of self.old) cell.0 → GoesOn (state_of self.old) → GoesOn (state_of self.new) }
    {
        row_keeps();
        self.dead = Some(self.dead_cells().with(cell));
    }
}
