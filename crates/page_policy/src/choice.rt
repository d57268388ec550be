//! What the policy chooses.
use base_words::NodeId;

/// What becomes of a page after a miss.
#[derive(Clone, Copy, Debug, PartialEq, Eq)]
pub enum Choice {
    /// It stays as it is.
    Stay,
    /// It is migrated to this node.
    Migrate(NodeId),
    /// It gets a copy for reading on this node.
    Replicate(NodeId),
}
