//! What the TLB says of an address.
use base_words::{FrameNo, Ppn};

/// What the TLB says of an address.
#[derive(Clone, Copy, Debug, PartialEq, Eq)]
pub enum HwAnswer {
    /// The virtual page lies in this frame, which has this page of the guest.
    Hit(FrameNo, Ppn),
    /// No half is of the virtual page in this address space.
    Miss,
    /// A store, and the half isn't writable. The virtual page lies in this frame, which has this page of the guest.
    ReadOnly(FrameNo, Ppn),
}
