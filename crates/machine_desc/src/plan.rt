//! What the processors are to do, and what is typed at each guest's console.
use base_words::{CellId, GuestId, InputLists, MoveKind, NodeId, Ppn, ProcId, Sequence, VcpuId};

/// One piece of work of one processor.
#[derive(Clone, Copy, Debug, PartialEq, Eq)]
pub enum Item {
    Run {
        processor: ProcId,
        guest: GuestId,
        vcpu: VcpuId,
        steps: u64,
    },
    Move {
        processor: ProcId,
        guest: GuestId,
        page: Ppn,
        kind: MoveKind,
        node: NodeId,
    },
    Fail {
        processor: ProcId,
        cell: CellId,
    },
}

/// Work, in the order of the description.
pub type ItemList = Sequence<Item>;

/// The work of the processors, and the input of each guest.
#[derive(Debug, Drop)]
pub struct Plan {
    pub items: ItemList,
    pub input: InputLists,
}
