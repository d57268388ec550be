//! A guest's journal of events, kept as runs: an entry and how often it comes in a row, so that millions of equal steps cost one
//! number.
#![tactic(auto)]

mod crossing;
mod journal;
mod marks;
mod run;
mod steps;

pub use base_words::{Event, ProcId, VcpuId};
pub use crossing::cross_threads;
pub use journal::Journal;
pub use run::{Run, Runs};
