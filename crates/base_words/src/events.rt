//! What a guest's journal tells: one entry for each change of the guest, made under its lock.
use crate::{By, Bytes, CellId, GuestId, MoveKind, NodeId, Ppn, ProcId, VcpuId};

/// How a guest ended.
#[derive(Clone, Copy, Debug, PartialEq, Eq)]
pub enum End {
    /// Its last virtual processor halted.
    Halted,
    /// The plan is done.
    Budget,
    /// This cell failed, which the guest used.
    CellFailed(CellId),
}

/// An entry of a journal. The places are places in the record's lists.
#[derive(Clone, Copy, Debug, PartialEq, Eq)]
pub enum Event {
    /// The virtual processor loaded on a processor makes one step through the processor's TLB.
    Direct(ProcId, VcpuId),
    /// A processor's TLB is filled.
    Refill(ProcId),
    /// The monitor makes one step of the virtual processor loaded on a processor.
    Emulate(ProcId, VcpuId),
    /// A move of a page begins; the node is the one that was asked for, or the guest's home node.
    Begin {
        page: Ppn,
        kind: MoveKind,
        node: NodeId,
        by: By,
    },
    /// A processor has dropped what its TLB had of a page.
    Ack(ProcId, Ppn),
    /// The move of a page is finished.
    Finish(Ppn),
    /// A virtual processor is loaded on a processor.
    Load(ProcId, VcpuId),
    /// A processor unloads what is loaded on it.
    Unload(ProcId),
    /// The packet at this place of those received comes in.
    PacketIn(u64),
    /// The packet at this place of those discarded is discarded.
    Discard(u64),
    /// The move at this place of those skipped is skipped.
    Skip(u64),
    /// A cell fails.
    CellFails(CellId),
    /// The guest ends.
    End(End),
}

/// An event that the guest itself sees.
#[derive(Debug, Drop)]
pub enum OwnEvent {
    /// One step of a virtual processor.
    Step(VcpuId),
    /// A packet from another guest comes into the page that is armed.
    Packet { from: GuestId, bytes: Bytes },
}
