//! The plain count.
ghost use Rattle.std.specs.Prelude.{◌≡◌, ◌<◌, ◌+◌, ◌*◌, ◌^◌, All, length};
ghost use Rattle.base_words.specs.declared.ids.FrameNo.{FrameNo};
ghost use Rattle.cell_depend.specs.CellUse.{frames_in, use_from_rows, vcpus_in};

use base_words::{CellId, FrameNo, Shape};

/// How many frames lie on the nodes of a cell.
fn count_frames(frames: &[FrameNo], shape: &Shape, cell: CellId) -> usize
    requires { All (λ (f : FrameNo). f.0 < shape.now.nodes * shape.now.frames) frames.now }
    ensures { result ≡ frames_in shape.now cell.0 frames.now }
{
    frames
        .iter()
        .filter(|frame| shape.cell_of(**frame).0 == cell.0)
        .count()
}

/// How many of some processors lie in a cell.
fn count_loaded(loaded: &[CellId], cell: CellId) -> usize
    ensures { result ≡ vcpus_in cell.0 loaded.now }
{
    loaded.iter().filter(|at| at.0 == cell.0).count()
}

/// How much a guest uses a cell, by the frames that it holds and the cells of the processors with a loaded virtual
/// processor of it: each is looked at.
pub fn count_from_rows(frames: &[FrameNo], loaded: &[CellId], shape: &Shape, cell: CellId) -> u64
    requires frames { All (λ (f : FrameNo). f.0 < shape.now.nodes * shape.now.frames) frames.now }
    requires few { length frames.now + length loaded.now < 2 ^ 64 }
    ensures { result ≡ use_from_rows shape.now cell.0 (record { frames = frames.now; loaded = loaded.now }) }
{
    count_frames(frames, shape, cell) as u64 + count_loaded(loaded, cell) as u64
}
