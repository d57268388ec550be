//! The order in which nodes are asked.
ghost use Rattle.std.specs.Prelude.{◌≡◌, ◌<◌, ◌++◌, IfOk, OnOk};
ghost use Rattle.node_frames.specs.Places.{AreNodes, cell_of_node};
ghost use Rattle.node_frames.specs.BootOrder.{boot_nodes};
ghost use Rattle.node_frames.specs.Groups.{is_in, group_nodes};
ghost use Rattle.node_frames.specs.Layout.{layout_of};

use base_words::{CellId, NodeId, NodeList, Shape};
use std::alloc::{AllocError, Global};

/// Nodes other than the home node.
#[derive(Clone, Copy)]
enum Group {
    SameCell,
    OtherCells,
}

/// The node first, then the other nodes of its cell by number, then the nodes of other cells by number.
pub fn boot_order(alloc: Global, shape: &Shape, node: NodeId) -> Result<NodeList, AllocError>
    requires { node.0 < shape.now.nodes }
    ensures order { IfOk result (λ order. order ≡ boot_nodes (layout_of shape.now) node) }
    ensures nodes { IfOk result (λ order. AreNodes (layout_of shape.now) order) }
{
    let mut nodes = Vec::new(alloc);
    nodes.push(node)?;
    push_group(&mut nodes, shape, node, Group::SameCell)?;
    push_group(&mut nodes, shape, node, Group::OtherCells)?;
    Ok(NodeList::from_vec(nodes))
}

fn push_group(
    nodes: &mut Vec<NodeId>,
    shape: &Shape,
    home: NodeId,
    group: Group,
) -> Result<(), AllocError>
    requires { home.0 < shape.now.nodes }
    ensures { OnOk result (nodes.new.items ≡ nodes.old.items ++ group_nodes group (layout_of shape.now) home.0) }
{
    for number in 0..shape.nodes {
        if is_in(group, shape, home, NodeId(number)) {
            nodes.push(NodeId(number))?;
        }
    }
    Ok(())
}

fn is_in(group: Group, shape: &Shape, home: NodeId, node: NodeId) -> bool
    requires { (home.0 < shape.now.nodes) × (node.0 < shape.now.nodes) }
    ensures { result ≡ is_in group (layout_of shape.now) home.0 node }
{
    let same = cell_of(shape, node) == cell_of(shape, home);
    match group {
        Group::SameCell => same && node != home,
        Group::OtherCells => !same,
    }
}

// The cell of a node.
fn cell_of(shape: &Shape, node: NodeId) -> CellId
    requires { node.0 < shape.now.nodes }
    ensures { result.0 ≡ cell_of_node (layout_of shape.now) node.0 }
{
    shape.cells.as_slice()[node.0 as usize]
}
