//! The loans that frames take.
ghost use Rattle.std.specs.Prelude.{◌≡◌, ◌<◌, ◌*◌, All, length};
ghost use Rattle.boot_frames.specs.Loans.{loans_of};
ghost use Rattle.node_frames.specs.Layout.{layout_of};

use base_words::{CellId, FrameList, Shape};

/// How many of these frames lie in each cell but home.
pub(crate) fn count_loans(shape: &Shape, home: CellId, frames: &FrameList) -> [u32; 8]
    requires few { length frames.now < 4294967296 }
    requires within { All (λ frame. frame.number.0 < shape.now.nodes * shape.now.frames) frames.now }
    requires cells { All (λ cell. cell.0 < 8) shape.now.cells }
    ensures { result ≡ loans_of (layout_of shape.now) home.0 frames.now }
{
    let mut loans = [0u32; 8];
    for frame in frames.as_slice() {
        let cell = shape.cell_of(frame.number);
        if cell != home {
            loans[cell.0 as usize] += 1;
        }
    }
    loans
}
