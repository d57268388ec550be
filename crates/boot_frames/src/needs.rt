//! What guests need of the machine's frames.
use base_words::NodeId;

/// So many pages, at home on a node.
#[derive(Clone, Copy, Debug, PartialEq, Eq)]
pub struct Need {
    pub node: NodeId,
    pub pages: u32,
}
