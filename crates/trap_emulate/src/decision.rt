//! What is to be done for a step, as it is decided before anything changes.
use base_words::{Cp0Op, Exception, MoveKind, Ppn, Register};
use guest_devs::DevAct;

/// What the monitor does for a step that it makes whole.
#[derive(Clone, Copy, Debug, PartialEq, Eq)]
pub enum Deed {
    /// An exception is taken.
    Raise(Exception),
    /// A register of coprocessor 0 is read into a general register.
    ReadCp0 { number: Register, target: Register },
    /// A register of coprocessor 0 is written.
    WriteCp0 { number: Register, value: u32 },
    /// An instruction of the TLB, or the return from an exception.
    System(Cp0Op),
    /// A word of the device page is loaded into a general register.
    LoadDevice { offset: u32, target: Register },
    /// A word is stored to the device page.
    StoreDevice { offset: u32, value: u32 },
}

/// What is decided of a step.
#[derive(Clone, Copy, Debug, PartialEq, Eq)]
pub enum Decision {
    /// The monitor makes it.
    Make(Deed),
    /// The page needs this move first.
    Need(Ppn, MoveKind),
    /// This act on the device page is left to the caller.
    Leave(DevAct),
}
