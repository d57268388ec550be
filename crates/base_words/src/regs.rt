//! The registers of a processor's integer part.

/// The general registers, HI and LO, the program counter, and where the delay slot leads.
#[derive(Clone, Copy, Debug, PartialEq, Eq)]
pub struct Regs {
    /// Registers 0 to 31. Register 0 reads 0 whatever stands here.
    pub general: [u32; 32],
    pub hi: u32,
    pub lo: u32,
    /// The address of the next instruction.
    pub pc: u32,
    /// In a delay slot the address after it, else none.
    pub slot: Option<u32>,
}
