//! HI and LO, and what an instruction asks of memory or of coprocessor 0.
use crate::{Cp0Op, LoadKind, Register, StoreKind};

/// HI and LO, as a product or a quotient makes them.
#[derive(Clone, Copy, Debug, PartialEq, Eq)]
pub struct HiLo {
    pub hi: u32,
    pub lo: u32,
}

/// What an instruction asks of memory or of coprocessor 0.
#[derive(Clone, Copy, Debug, PartialEq, Eq)]
pub enum Request {
    Nothing,
    /// A load from an address into a register.
    Load {
        kind: LoadKind,
        address: u32,
        target: Register,
    },
    /// A store of a register's value to an address.
    Store {
        kind: StoreKind,
        address: u32,
        value: u32,
    },
    /// A load of a word into a register, which links its line.
    LoadLinked {
        address: u32,
        target: Register,
    },
    /// A store of a word, where its line is linked; the register tells whether it was made.
    StoreConditional {
        address: u32,
        value: u32,
        target: Register,
    },
    /// A read of the register of coprocessor 0 of this number into a register.
    ReadCp0 {
        number: Register,
        target: Register,
    },
    /// A write of a register's value to the register of coprocessor 0 of this number.
    WriteCp0 {
        number: Register,
        value: u32,
    },
    /// An instruction of the TLB, or the return from an exception.
    System(Cp0Op),
}
