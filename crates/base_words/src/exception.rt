//! The exceptions that a step can raise.

/// What an address is used for.
#[derive(Clone, Copy, Debug, PartialEq, Eq)]
pub enum Use {
    Fetch,
    Load,
    Store,
}

/// An exception, with the address as given where one is part of it.
#[derive(Clone, Copy, Debug, PartialEq, Eq)]
pub enum Exception {
    /// An interrupt that is enabled and pending.
    Interrupt,
    /// A store to a page that the TLB holds as not dirty.
    TlbModified(u32),
    /// A TLB refill: no entry matches the address.
    TlbRefill(Use, u32),
    /// An entry matches the address, and isn't valid.
    TlbInvalid(Use, u32),
    /// An address that isn't aligned, or is outside the mode's ranges.
    AddressError(Use, u32),
    /// No memory and no register is there.
    BusError(Use),
    SystemCall,
    Breakpoint,
    ReservedInstruction,
    /// The coprocessor of this number isn't there, or isn't allowed.
    CoprocessorUnusable(u8),
    Overflow,
    Trap,
}
