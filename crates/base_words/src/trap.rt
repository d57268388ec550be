//! What a step through a processor's own TLB answers.
use crate::{Exception, FrameNo, Ppn};

/// The data access of a step, with the page and the frame that it reached.
#[derive(Clone, Copy, Debug, PartialEq, Eq)]
pub enum DataAccess {
    NoData,
    Load { page: Ppn, frame: FrameNo },
    /// A store that was made. A conditional one that isn't made is a load: it is translated as a store, and stores nothing.
    Store { page: Ppn, frame: FrameNo },
}

/// The frame that the instruction was fetched from, and the data access.
#[derive(Clone, Copy, Debug, PartialEq, Eq)]
pub struct Access {
    pub fetched: FrameNo,
    pub data: DataAccess,
}

/// Why a processor traps to the monitor. The words are the instruction at the program counter.
#[derive(Clone, Copy, Debug, PartialEq, Eq)]
pub enum TrapCause {
    /// An interrupt is enabled and pending.
    Line,
    /// No valid half matches the address of the fetch.
    FetchMiss,
    /// No valid half matches the address of the data access.
    DataMiss(u32),
    /// A store through a half that isn't writable.
    ReadOnly(u32),
    /// An address that isn't aligned, or is outside the mode's ranges: of a fetch, or of the instruction's data access.
    Address(Option<u32>),
    /// An instruction of coprocessor 0.
    Privileged(u32),
    /// The instruction raises an exception other than by memory.
    Raised(Exception),
    /// The frame lies in a cell that has failed.
    Dead(FrameNo),
}

/// What became of a step.
#[derive(Clone, Copy, Debug, PartialEq, Eq)]
pub enum HwStep {
    /// The processor made it by itself.
    Direct(Access),
    /// Nothing was done.
    Trap(TrapCause),
}
