//! The terms on which packets go.
ghost use Rattle.std.specs.Prelude.{◌≡◌, IfOk};
ghost use Rattle.wire_queue.specs.Lines.{terms_of};

use base_words::{CellList, Shape};
use std::alloc::{AllocError, Global};

/// How the machine's memory lies, and where guests live: how many frames each node has, the cell of each node, and the home cell
/// of each guest.
#[derive(Drop)]
pub struct Terms {
    pub frames: u32,
    pub cells: CellList,
    pub homes: CellList,
}

/// The same cells.
fn copy_of(alloc: Global, cells: &CellList) -> Result<CellList, AllocError>
    ensures { IfOk result (λ copy. copy ≡ cells.now) }
{
    Ok(CellList::from_vec(Vec::from_slice(alloc, cells.as_slice())?))
}

impl Terms {
    /// The terms by this shape and these homes.
    pub fn new(alloc: Global, shape: &Shape, homes: &CellList) -> Result<Self, AllocError>
        ensures { IfOk result (λ terms. terms ≡ terms_of shape.now homes.now) }
    {
        Ok(Terms {
            frames: shape.frames,
            cells: copy_of(alloc, &shape.cells)?,
            homes: copy_of(alloc, homes)?,
        })
    }
}
