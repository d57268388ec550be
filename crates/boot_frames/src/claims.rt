//! Who gets frames at boot, and of which nodes.
ghost use Rattle.std.specs.Prelude.{◌≡◌, ◌<◌, IfOk};
ghost use Rattle.node_frames.specs.BootOrder.{cell_nodes};
ghost use Rattle.node_frames.specs.Layout.{layout_of};
ghost use Rattle.node_frames.specs.Places.{AreNodes};
ghost use Rattle.boot_frames.specs.Chain.{shortage_of};
ghost use Rattle.boot_frames.specs.Claims.{home_of, order_of, IsAtHome};

use crate::answers::Shortage;
use base_words::{CellId, GuestId, NodeId, NodeList, Shape};
use node_frames::{boot_order, cell_frames_count_the_cache};
use std::alloc::{AllocError, Global};

/// Who gets frames at boot.
#[derive(Clone, Copy, Debug, PartialEq, Eq)]
pub enum Taker {
    /// A cell for its cache, which lies on the cell's own nodes.
    Cache(CellId),
    /// A guest for its pages, at home on a node.
    Pages(GuestId, NodeId),
}

/// So many frames for one of them.
#[derive(Clone, Copy, Debug, PartialEq, Eq)]
pub struct Claim {
    pub taker: Taker,
    pub frames: u32,
}

// The nodes of a cell, by number.
fn cell_order(alloc: Global, shape: &Shape, cell: CellId) -> Result<NodeList, AllocError>
    ensures { IfOk result (λ order. order ≡ cell_nodes (layout_of shape.now) cell.0) }
{
    let mut nodes = Vec::new(alloc);
    for number in 0..shape.nodes {
        if shape.cells.as_slice()[number as usize] == cell {
            nodes.push(NodeId(number))?;
        }
    }
    Ok(NodeList::from_vec(nodes))
}

impl Taker {
    /// The cell whose frames take no loan.
    pub(crate) fn home(self, shape: &Shape) -> CellId
        requires { IsAtHome (layout_of shape.now) self }
        ensures { result.0 ≡ home_of (layout_of shape.now) self }
    {
        match self {
            Taker::Cache(cell) => cell,
            Taker::Pages(_, node) => shape.cells.as_slice()[node.0 as usize],
        }
    }

    /// The nodes in the order in which they are asked.
    pub(crate) fn order(self, alloc: Global, shape: &Shape) -> Result<NodeList, AllocError>
        requires { IsAtHome (layout_of shape.now) self }
        ensures order { IfOk result (λ order. order ≡ order_of (layout_of shape.now) self) }
        ensures nodes { IfOk result (λ order. AreNodes (layout_of shape.now) order) }
    {
        cell_frames_count_the_cache();
        match self {
            Taker::Cache(cell) => cell_order(alloc, shape, cell),
            Taker::Pages(_, node) => boot_order(alloc, shape, node),
        }
    }
}

impl Claim {
    /// The refusal of this claim, for which there are only so many frames.
    pub(crate) fn shortage(self, has: u32) -> Shortage
        ensures { result ≡ shortage_of self.taker self.frames has }
    {
        let needs = self.frames;
        match self.taker {
            Taker::Cache(cell) => Shortage::Cell { cell, needs, has },
            Taker::Pages(guest, _) => Shortage::Guest { guest, needs, has },
        }
    }
}
