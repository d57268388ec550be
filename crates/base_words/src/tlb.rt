//! The guest's TLB, as its kernel fills it.

/// An entry of the TLB, as EntryHi, EntryLo0 and EntryLo1 hold it. It maps a pair of pages.
#[derive(Clone, Copy, Debug, PartialEq, Eq)]
pub struct Entry {
    /// VPN2 in bits 31 to 13, ASID in bits 7 to 0.
    pub hi: u32,
    /// The even page: PFN in bits 29 to 6, C in 5 to 3, D, V and G in 2, 1 and 0.
    pub lo0: u32,
    /// The odd page.
    pub lo1: u32,
}

/// What the TLB says of an address.
#[derive(Clone, Copy, Debug, PartialEq, Eq)]
pub enum TlbAnswer {
    /// The page lies in this frame of the guest's physical memory (PFN).
    Hit(u32),
    /// No entry matches.
    Miss,
    /// The entry's half isn't valid.
    Invalid,
    /// A store, and the entry's half isn't dirty.
    ReadOnly,
}
