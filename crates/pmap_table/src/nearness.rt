//! How near frames lie to a node, and which of them are lost with cells that have failed.
ghost use Rattle.std.specs.Prelude.{◌≡◌, ◌<◌};
ghost use Rattle.private_machine.specs.Backing.{distance as distance_of};
ghost use Rattle.pmap_table.specs.NearFrame.{cell_on, is_nearer as is_nearer_of, lost_on};

use base_words::{CellId, CellSet, FrameNo, MOST_CELLS, NodeId, Shape};

/// How far apart two nodes are.
fn distance(node: u32, other: u32) -> u32
    ensures { result ≡ distance_of node other }
{
    if node < other {
        other - node
    } else {
        node - other
    }
}

/// Whether a frame is nearer to a node than another: on a nearer node, or on the lower one of two as near. Each node has so many frames.
pub(crate) fn is_nearer(frames: u32, node: NodeId, frame: FrameNo, other: FrameNo) -> bool
    requires { 0 < frames }
    ensures { result ≡ is_nearer_of frames node.0 frame.0 other.0 }
{
    let to = u32::from(node.0);
    let here = frame.0 / frames;
    let there = other.0 / frames;
    let near = distance(here, to);
    let far = distance(there, to);
    near < far || near == far && here < there
}

/// The cell of a node.
fn cell_at(shape: &Shape, node: u32) -> CellId
    ensures { result.0 ≡ cell_on shape.now node }
{
    match shape.cells.as_slice().get(node as usize) {
        Some(cell) => *cell,
        None => CellId(0),
    }
}

/// Whether a frame lies in one of these cells, which have failed.
pub(crate) fn is_lost(shape: &Shape, dead: CellSet, frame: FrameNo) -> bool
    ensures { result ≡ lost_on shape.now dead frame.0 }
{
    let cell = cell_at(shape, frame.0 / shape.frames);
    usize::from(cell.0) < MOST_CELLS && dead.has(cell)
}
