//! What the tables of a description say, before the names in them are looked up.
use crate::{ItemList, SpecList};
use base_words::{
    Bytes, CellId, CellList, GuestId, MoveKind, NodeId, NodeList, Policy, Ppn, ProcId, Sequence,
    VcpuId,
};

/// The machine's nodes, the frames of each, the node of each processor, and the size of the index of blocks.
#[derive(Debug, Drop)]
pub struct MachineTable {
    pub nodes: u8,
    pub frames: u32,
    pub processors: NodeList,
    pub cache: u32,
}

/// The nodes of a cell, and how many frames it lends.
#[derive(Debug, Drop)]
pub struct CellTable {
    pub nodes: NodeList,
    pub lend: u32,
}

/// What a piece of work does.
#[derive(Clone, Copy, Debug, PartialEq, Eq)]
pub enum Act {
    Run,
    Move,
    Fail,
}

/// A piece of work. A collapse names no node.
#[derive(Clone, Copy, Debug, PartialEq, Eq)]
pub enum Work {
    Run {
        processor: ProcId,
        guest: GuestId,
        vcpu: VcpuId,
        steps: u32,
    },
    Move {
        processor: ProcId,
        guest: GuestId,
        page: Ppn,
        kind: MoveKind,
        node: Option<NodeId>,
    },
    Fail {
        processor: ProcId,
        cell: CellId,
    },
}

/// Bytes that come to a guest's console once its first vcpu has done so many own steps.
#[derive(Debug, Drop)]
pub struct InputTable {
    pub guest: GuestId,
    pub at: u32,
    pub text: Bytes,
}

/// All tables, in the order of the description.
#[derive(Debug, Drop)]
pub struct Sheet {
    pub machine: MachineTable,
    pub cells: Sequence<CellTable>,
    pub guests: SpecList,
    pub policy: Policy,
    pub work: Sequence<Work>,
    pub input: Sequence<InputTable>,
}

/// What is looked up in the tables: the cell of each node, and the items of the plan.
#[derive(Debug, Drop)]
pub struct Named {
    pub homes: CellList,
    pub items: ItemList,
}
