//! The guest's TLB, which its kernel fills: 48 entries, each of a pair of pages.
#![tactic(auto)]

mod entries;
mod everywhere;
mod tlb;

pub use base_words::{Entry, TlbAnswer};
pub use tlb::Tlb48;
