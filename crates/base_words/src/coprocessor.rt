//! The registers of coprocessor 0, the processor's system control.
use crate::Field;

/// The number of a TLB entry, as Index, Random and Wired hold it.
pub type EntryNumber = Field<6>;
/// The number of a pair of pages (VPN2), bits 31 to 13 of an address.
pub type PagePair = Field<19>;
/// What EntryLo0 or EntryLo1 holds: PFN, C, D, V and G.
pub type EntryLo = Field<30>;

/// A register of coprocessor 0, by its name in the manual.
#[derive(Clone, Copy, Debug, PartialEq, Eq)]
pub enum Cp0Register {
    Index,
    Random,
    EntryLo0,
    EntryLo1,
    Context,
    PageMask,
    Wired,
    BadVAddr,
    Count,
    EntryHi,
    Compare,
    Status,
    Cause,
    Epc,
    PrId,
    /// A number at which no register is.
    Unused,
}

/// Whether the guest's kernel or its user code runs, as Status says (KSU).
#[derive(Clone, Copy, Debug, PartialEq, Eq)]
pub enum Mode {
    Kernel,
    User,
}

/// Index: the entry that TLBWI and TLBR use, and that TLBP found.
#[derive(Clone, Copy, Debug, PartialEq, Eq)]
pub struct Index {
    /// P: the last probe found no entry.
    pub failed: bool,
    pub entry: EntryNumber,
}

/// Context.
#[derive(Clone, Copy, Debug, PartialEq, Eq)]
pub struct Context {
    /// PTEBase: bits 31 to 23 of the page table's address.
    pub table: Field<9>,
    /// BadVPN2: the pair of pages at which the last TLB exception was.
    pub pair: PagePair,
}

/// EntryHi.
#[derive(Clone, Copy, Debug, PartialEq, Eq)]
pub struct EntryHi {
    /// VPN2.
    pub pair: PagePair,
    /// ASID: the address space of what runs now.
    pub asid: u8,
}

/// Status.
#[derive(Clone, Copy, Debug, PartialEq, Eq)]
pub struct Status {
    /// IE: interrupts are enabled.
    pub enabled: bool,
    /// EXL: an exception is being handled.
    pub exception: bool,
    /// KSU.
    pub mode: Mode,
    /// IM: which interrupts are let through, IP0 in the lowest bit.
    pub mask: u8,
}

/// IP, the interrupts that are pending.
#[derive(Clone, Copy, Debug, PartialEq, Eq)]
pub struct Pending {
    /// IP1 and IP0, which software sets and clears.
    pub software: Field<2>,
    /// IP2: console input.
    pub input: bool,
    /// IP3: a packet.
    pub packet: bool,
    /// IP4: another virtual processor.
    pub vcpu: bool,
    /// IP7: the timer.
    pub timer: bool,
}

/// Cause.
#[derive(Clone, Copy, Debug, PartialEq, Eq)]
pub struct Cause {
    /// BD: the last exception was in a delay slot.
    pub slot: bool,
    /// CE: the coprocessor that wasn't usable.
    pub unit: Field<2>,
    /// IP.
    pub pending: Pending,
    /// ExcCode: the last exception.
    pub code: Field<5>,
}

/// What coprocessor 0 holds.
#[derive(Clone, Copy, Debug, PartialEq, Eq)]
pub struct Cp0Registers {
    pub index: Index,
    pub random: EntryNumber,
    pub entry_lo0: EntryLo,
    pub entry_lo1: EntryLo,
    pub context: Context,
    pub wired: EntryNumber,
    /// BadVAddr: the address at which the last exception of an address was.
    pub bad_address: u32,
    pub count: u32,
    pub entry_hi: EntryHi,
    pub compare: u32,
    pub status: Status,
    pub cause: Cause,
    /// EPC: where ERET returns to.
    pub epc: u32,
}
