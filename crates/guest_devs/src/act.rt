//! What a store to the device page leaves to do.

/// What a store to the device page leaves to do.
#[derive(Clone, Copy, Debug, PartialEq, Eq)]
pub enum DevAct {
    /// Nothing.
    Done,
    /// The block that the virtual processor has set goes into the page that it has set.
    DiskRead,
    /// The page goes into the block.
    DiskWrite,
    /// The bytes that the virtual processor has set go to the guest of this number.
    Send(u32),
}
