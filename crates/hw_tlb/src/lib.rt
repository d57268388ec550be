//! The processor's TLB, which the monitor fills: 48 entries of two halves, each half of one virtual page in one address space
//! or in all.
#![tactic(auto)]

mod answer;
mod buckets;
mod entries;
mod hints;
mod others;
mod room;
mod rooms;
mod scans;
mod tlb;

pub use answer::HwAnswer;
pub use tlb::HwTlb;
