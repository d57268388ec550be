//! Changes of what backs a page: their kinds, who asks for them, and when the policy does.
use crate::ProcId;

/// A change of what backs a page.
#[derive(Clone, Copy, Debug, PartialEq, Eq)]
pub enum MoveKind {
    /// Another frame becomes the page's master.
    Migrate,
    /// A further frame becomes a copy for reading.
    Replicate,
    /// The copies for reading go.
    Collapse,
    /// A shared page gets a frame of its own.
    Break,
    /// A frame that others hold too becomes the page's master.
    TakeShared,
    /// The page's master may be held by others too, and is no longer written.
    GiveShared,
}

/// Who asked for a move.
#[derive(Clone, Copy, Debug, PartialEq, Eq)]
pub enum By {
    /// The plan, through this processor.
    Plan(ProcId),
    /// The policy's choice that was due on this processor.
    Due(ProcId),
    /// The step of the virtual processor loaded on this processor, which needs it.
    Step(ProcId),
    /// The packet in hand, which needs it.
    Packet,
}

/// After how many misses of one node a page is migrated or replicated to it. 0 is never.
#[derive(Clone, Copy, Debug, PartialEq, Eq)]
pub struct Policy {
    pub migrate: u32,
    pub replicate: u32,
}
