//! The numbers by which guests, processors, memory and their parts are told apart. Each counts from 0.
ghost use Rattle.std.specs.Prelude.{◌≡◌, ℕ};

/// One guest system.
#[derive(Clone, Copy, Debug, PartialEq, Eq, PartialOrd, Ord, Hash)]
pub struct GuestId(pub u8);

/// One virtual processor of a guest.
#[derive(Clone, Copy, Debug, PartialEq, Eq, PartialOrd, Ord, Hash)]
pub struct VcpuId(pub u8);

/// One processor of the modelled machine.
#[derive(Clone, Copy, Debug, PartialEq, Eq, PartialOrd, Ord, Hash)]
pub struct ProcId(pub u8);

/// A group of processors and frames whose accesses are near each other.
#[derive(Clone, Copy, Debug, PartialEq, Eq, PartialOrd, Ord, Hash)]
pub struct NodeId(pub u8);

/// A group of nodes that fails as one.
#[derive(Clone, Copy, Debug, PartialEq, Eq, PartialOrd, Ord, Hash)]
pub struct CellId(pub u8);

/// One page of the machine's memory, 4096 bytes.
#[derive(Clone, Copy, Debug, PartialEq, Eq, PartialOrd, Ord, Hash)]
pub struct FrameNo(pub u32);

/// One page of a guest's physical memory, 4096 bytes.
#[derive(Clone, Copy, Debug, PartialEq, Eq, PartialOrd, Ord, Hash)]
pub struct Ppn(pub u32);

/// An identifier that is a place in a table.
pub trait Numbered: Copy {
    ghost number_of: { Self → ℕ };

    /// The place, counted from 0.
    fn number(self) -> usize
        ensures { result ≡ number_of self };
}

impl Numbered for ProcId {
    ghost number_of = { λ p. p.0 };

    fn number(self) -> usize {
        self.0 as usize
    }
}

impl Numbered for CellId {
    ghost number_of = { λ c. c.0 };

    fn number(self) -> usize {
        self.0 as usize
    }
}
