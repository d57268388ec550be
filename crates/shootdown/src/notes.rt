//! What a processor and a guest note.
use base_words::{CellId, End, Event, MoveKind, NodeId, Ppn, VcpuId};

/// What one call of a processor did to a guest.
#[derive(Clone, Copy, Debug, PartialEq, Eq)]
pub enum Note {
    /// The guest's journal got this entry.
    Made(Event),
    /// The plan asked for this move of a page to a node.
    Asked(Ppn, MoveKind, NodeId),
    /// The call answered that this virtual processor has halted.
    Halted(VcpuId),
    /// The call answered that the guest has ended.
    Ended(End),
    /// The call answered that this cell is dead.
    Dead(CellId),
}
