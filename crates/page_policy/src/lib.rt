//! When a page is moved to the node that uses it: how often each node missed each page, whether the page was written, and the
//! choice after a miss.
#![tactic(auto)]

mod choice;
mod counters;
mod rows;

pub use base_words::{NodeId, Policy, Ppn};
pub use choice::Choice;
pub use counters::Counters;
