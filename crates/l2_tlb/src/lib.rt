//! A virtual processor's second-level TLB, which outlives the hardware's: 512 places, of which an entry's is the low 9 bits of
//! its page number.
#![tactic(auto)]

mod entry;
mod groups;
mod table;

pub use base_words::Ppn;
pub use entry::L2Entry;
pub use table::L2;
