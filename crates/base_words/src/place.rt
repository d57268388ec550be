//! Where an address leads.

/// A place in a guest's physical address space.
#[derive(Clone, Copy, Debug, PartialEq, Eq)]
pub enum Place {
    /// An offset in bytes into the guest's memory.
    Memory(u64),
    /// An offset in bytes into the device page.
    Device(u32),
}
