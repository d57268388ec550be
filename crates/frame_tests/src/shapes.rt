//! Cells, machines' shapes and orders of nodes, from their numbers.
ghost use Rattle.std.specs.Prelude.{◌≡◌, ◌<◌, ◌≤◌, length};

use crate::telling::gave;
use base_words::{CellId, CellList, NodeId, NodeList, Shape};
use std::alloc::Global;
use std::process::Abort;

/// These cells, in this order.
pub(crate) fn cells_of(rt: &impl Abort, alloc: Global, cells: &[CellId]) -> CellList
    ensures { result ≡ cells.now }
{
    CellList::from_vec(gave(rt, cells.to_vec(alloc)))
}

/// Nodes of so many frames, each in the cell that stands at its place.
pub(crate) fn shape_of(rt: &impl Abort, alloc: Global, frames: u32, cells: &[CellId]) -> Shape
    requires some { 0 < frames }
    requires few { length cells.now ≤ 8 }
    ensures nodes { result.nodes ≡ length cells.now }
    ensures frames { result.frames ≡ frames }
    ensures cells { result.cells ≡ cells.now }
{
    Shape {
        nodes: cells.len() as u8,
        frames,
        cells: cells_of(rt, alloc, cells),
    }
}

/// These nodes, in this order.
pub(crate) fn order_of(rt: &impl Abort, alloc: Global, nodes: &[NodeId]) -> NodeList
    ensures { result ≡ nodes.now }
{
    NodeList::from_vec(gave(rt, nodes.to_vec(alloc)))
}
