//! Pages behind locks of their own: whatever the callers do at once, each page's history is one that a single thread could
//! have made.
#![tactic(auto)]

mod access;
mod caller;
mod closing;
mod crossing;
mod kept;
mod making;
mod op;
mod protocol;
mod slots;
mod turns;
mod view;

pub use access::{Entry, Histories, History, SlotAccess};
pub use caller::{Caller, CallerList};
pub use closing::close;
pub use crossing::cross_threads;
pub use op::{Litmus, Op, OpList, OpLists};
pub use slots::PageSlots;
