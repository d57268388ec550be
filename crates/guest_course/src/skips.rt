//! What a guest keeps of the moves that weren't begun.
use crate::place::Wish;
use base_words::{By, CellId, Sequence};
use node_frames::ShownList;

/// Why a move wasn't begun, in the order in which the causes are tested.
#[derive(Debug, Drop)]
pub enum SkipCause {
    /// The guest has ended.
    Ended,
    /// The cell of the processor that asked has failed, or that of the node to which the page was to go.
    DeadCell(CellId),
    /// Others may hold the page's master too.
    Shared,
    /// A page with replicas was to migrate.
    Replicated,
    /// The page has a frame on the node already.
    SameNode,
    /// The page has no replicas that could go.
    NoReplica,
    /// The nodes that were asked gave no frame, and showed this.
    NoFrame(ShownList),
}

/// A move that wasn't begun: what was asked for, by whom, and why it wasn't.
#[derive(Debug, Drop)]
pub struct SkipEntry {
    pub wish: Wish,
    pub by: By,
    pub cause: SkipCause,
}

/// The moves that weren't begun, in their order.
pub type SkipList = Sequence<SkipEntry>;
