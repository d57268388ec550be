//! Where a virtual processor stands whose step is emulated, and what became of the step.
use base_words::{Exception, MoveKind, Ppn, VcpuId};
use guest_devs::DevAct;

/// Which virtual processor steps, in a guest of so many pages, and the move that a store into the accessed memory page would need.
#[derive(Clone, Copy, Debug, PartialEq, Eq)]
pub struct Standing {
    pub vcpu: VcpuId,
    pub pages: u32,
    pub store_needs: Option<MoveKind>,
}

/// An entry of the guest's TLB that was written: its number, and the pairs of pages of the old and the new entry.
#[derive(Clone, Copy, Debug, PartialEq, Eq)]
pub struct EntryWrite {
    pub index: u8,
    pub old_pair: u32,
    pub new_pair: u32,
}

/// What became of a step for which the hardware trapped.
#[derive(Clone, Copy, Debug, PartialEq, Eq)]
pub enum Emulated {
    /// The step was made whole, and raised nothing. It may have written an entry of the guest's TLB.
    Done(Option<EntryWrite>),
    /// The step was made whole, and raised this exception.
    Forward(Exception),
    /// Nothing has changed: the step stores to this page of memory, for which this move is needed first.
    Need(Ppn, MoveKind),
    /// Nothing has changed: the step stores to the device page, and this act and the rest of the step are left to the caller.
    Device(DevAct),
}
