//! Looks up the nodes and guests that the tables name, but those of work.
ghost use Rattle.std.specs.Prelude.{◌≡◌, ◌≤◌, length, map, IfOk};
ghost use Rattle.machine_desc.specs.Paths.{path_of};
ghost use Rattle.machine_desc.specs.Reads.{Gives};
ghost use Rattle.machine_desc.specs.Names.{there, processors_named, has_node, cell_with, node_named, cell_named, cells_named, home, homes, guests_named, input_named};

use crate::sheet::{CellTable, InputTable};
use crate::{DescFault, GuestSpec, Key, Place};
use base_words::{CellId, CellList, NodeId, Sequence};
use std::alloc::Global;

/// Refuses a number that nothing has, since there are only so many.
pub fn there(key: Key, count: u64, number: u64) -> Result<(), DescFault>
    ensures { Gives (λ _. tt) result (there (path_of key.entry) count number) }
{
    if number < count {
        Ok(())
    } else {
        Err(key.names(number))
    }
}

/// Whether the node is one of these.
fn has_node(nodes: &[NodeId], node: NodeId) -> bool
    ensures { result ≡ has_node node.0 nodes.now }
{
    nodes.iter().any(|n| n.0 == node.0)
}

/// The first cell that has the node.
fn cell_with(cells: &[CellTable], node: NodeId) -> Option<usize>
    ensures { result ≡ cell_with node.0 cells.now }
{
    cells
        .iter()
        .position(|cell| has_node(cell.nodes.as_slice(), node))
}

/// Refuses the first processor on a node that isn't there.
#[tactic(auto, unfolding(crate::specs::Names::processors_named), using(crate::proofs::Plain::checks))]
pub fn processors_named(alloc: Global, count: u8, processors: &[NodeId]) -> Result<(), DescFault>
    ensures { Gives (λ _. tt) result (processors_named count processors.now) }
{
    let (place, name) = (Place::Machine, "processors");
    let key = Key { alloc, place, name };
    for node in processors {
        there(key, u64::from(count), u64::from(node.0))?;
    }
    Ok(())
}

/// Refuses a node of a cell that isn't there, or that has a cell before it, or stands in this one before.
fn node_named(
    key: Key,
    count: u8,
    cells: &[CellTable],
    own: &[NodeId],
    node: NodeId,
) -> Result<(), DescFault>
    ensures { Gives (λ _. tt) result
        (node_named (path_of key.entry) count cells.now own.now node.0) }
{
    there(key, u64::from(count), u64::from(node.0))?;
    if has_node(own, node) || cell_with(cells, node).is_some() {
        return Err(key.twice(u64::from(node.0)));
    }
    Ok(())
}

/// Refuses the first of a cell's nodes that isn't there, or has a cell already.
#[tactic(auto, unfolding(crate::specs::Names::cell_named), using(crate::proofs::Plain::checks))]
fn cell_named(
    alloc: Global,
    count: u8,
    number: usize,
    cells: &[CellTable],
    nodes: &[NodeId],
) -> Result<(), DescFault>
    ensures { Gives (λ _. tt) result (cell_named count number cells.now nodes.now) }
{
    let (place, name) = (Place::Cell(number), "nodes");
    let key = Key { alloc, place, name };
    for (j, node) in nodes.iter().enumerate() {
        node_named(key, count, cells, &nodes[..j], *node)?;
    }
    Ok(())
}

/// Refuses the first node of a cell that isn't there, or has a cell already.
#[tactic(auto, unfolding(crate::specs::Names::cells_named), using(crate::proofs::Plain::checks))]
pub fn cells_named(alloc: Global, count: u8, cells: &[CellTable]) -> Result<(), DescFault>
    ensures { Gives (λ _. tt) result (cells_named count cells.now) }
{
    for (i, cell) in cells.iter().enumerate() {
        cell_named(alloc, count, i, &cells[..i], cell.nodes.as_slice())?;
    }
    Ok(())
}

/// The cell of a node.
fn home(alloc: Global, cells: &[CellTable], node: NodeId) -> Result<CellId, DescFault>
    requires { length cells.now ≤ 8 }
    ensures { Gives (λ cell. cell) result (home cells.now node.0) }
{
    let (place, name) = (Place::Machine, "nodes");
    let key = Key { alloc, place, name };
    match cell_with(cells, node) {
        Some(cell) => Ok(CellId(cell as u8)),
        None => Err(key.names(u64::from(node.0))),
    }
}

/// The cell of each node, or the least node without one.
#[tactic(auto, unfolding(crate::specs::Names::homes), using(crate::proofs::Ranges::range_readings))]
pub fn homes(alloc: Global, count: u8, cells: &[CellTable]) -> Result<CellList, DescFault>
    requires { length cells.now ≤ 8 }
    ensures homes { Gives (λ homes. homes) result (homes count cells.now) }
    ensures as_many { IfOk result (λ homes. length homes ≡ count) }
{
    let mut homes = Sequence::new(alloc);
    for node in 0..count {
        homes.push(home(alloc, cells, NodeId(node))?)?;
    }
    Ok(homes)
}

/// Refuses the first guest on a node that isn't there.
#[tactic(auto, unfolding(crate::specs::Names::guests_named), using(crate::proofs::Plain::checks))]
pub fn guests_named(alloc: Global, count: u8, guests: &[GuestSpec]) -> Result<(), DescFault>
    ensures { Gives (λ _. tt) result (guests_named count guests.now) }
{
    for (i, guest) in guests.iter().enumerate() {
        let (place, name) = (Place::Guest(i), "node");
        let key = Key { alloc, place, name };
        there(key, u64::from(count), u64::from(guest.node.0))?;
    }
    Ok(())
}

/// Refuses the first input for a guest that isn't there.
#[tactic(auto, unfolding(crate::specs::Names::input_named), using(crate::proofs::Plain::checks))]
pub fn input_named(alloc: Global, count: usize, input: &[InputTable]) -> Result<(), DescFault>
    ensures { Gives (λ _. tt) result (input_named count input.now) }
{
    for (i, entry) in input.iter().enumerate() {
        let (place, name) = (Place::Input(i), "guest");
        let key = Key { alloc, place, name };
        there(key, count as u64, u64::from(entry.guest.0))?;
    }
    Ok(())
}
