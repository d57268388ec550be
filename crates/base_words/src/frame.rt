//! The machine's frames, and how they lie on nodes and cells.
ghost use Rattle.std.specs.Prelude.{◌≡◌, ◌<◌, ◌≤◌, ◌*◌, ◌/◌, Some, length, slice_get};

use crate::{CellId, CellList, FrameNo, NodeId, Page, Sequence};
use std::sync::Arc;

/// A frame that its holder may write: its number, the generation under which it is held, and its bytes.
#[derive(Debug, Drop)]
pub struct Frame {
    pub number: FrameNo,
    pub generation: u32,
    pub page: Box<Page>,
}

/// A frame that others may hold too, and nobody writes.
#[derive(Drop)]
pub struct SharedFrame {
    pub number: FrameNo,
    pub generation: u32,
    pub page: Arc<Box<Page>>,
}

/// Frames, in an order.
pub type FrameList = Sequence<Frame>;

/// How the machine's memory lies: its nodes, the frames of each, and the cell of each node.
#[derive(Debug, Drop)]
pub struct Shape {
    pub nodes: u8,
    pub frames: u32,
    pub cells: CellList,
    ghost few_nodes: { nodes ≤ 8 },
    ghost has_frames: { 0 < frames },
    ghost has_cells: { length cells ≡ nodes },
}

impl Shape {
    /// The node on which a frame lies. Frames are numbered node by node.
    #[tactic(auto, using(std::proofs::lemmas::Nat::div_below))]
    pub fn node_of(&self, frame: FrameNo) -> NodeId
        requires { frame.0 < self.now.nodes * self.now.frames }
        ensures node { result.0 ≡ frame.0 / self.now.frames }
        ensures within { result.0 < self.now.nodes }
    {
        NodeId((frame.0 / self.frames) as u8)
    }

    /// The cell in which a frame lies: that of its node.
    pub fn cell_of(&self, frame: FrameNo) -> CellId
        requires { frame.0 < self.now.nodes * self.now.frames }
        ensures { slice_get self.now.cells (frame.0 / self.now.frames) ≡ Some result }
    {
        self.cells.as_slice()[self.node_of(frame).0 as usize]
    }
}
