//! The machine that a description asks for, with the guests on it.
use base_words::{LendList, Name, NodeId, NodeList, Policy, Sequence, Shape};

/// The modelled machine, the guests on it, and when their pages move.
#[derive(Debug, Drop)]
pub struct Machine {
    pub shape: Shape,
    /// The node of each processor.
    pub processors: NodeList,
    /// How many frames each cell lends.
    pub lends: LendList,
    /// How many entries the index of shared disk blocks may have, for each cell.
    pub cache: u32,
    pub guests: SpecList,
    pub policy: Policy,
}

/// One guest: the files that it starts from, its size, its home node, and its profile.
#[derive(Debug, Drop)]
pub struct GuestSpec {
    pub image: Name,
    /// Whether the image is raw words, and no ELF file.
    pub raw: bool,
    pub pages: u32,
    pub vcpus: u8,
    pub node: NodeId,
    pub disk: Option<Name>,
    /// 1, or 2 for a guest whose kernel has a register page.
    pub profile: u8,
}

/// The guests, by their numbers.
pub type SpecList = Sequence<GuestSpec>;
