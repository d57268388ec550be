//! A guest's pages, and the frames of the machine behind each: its master, replicas, the processors that may name it, and its
//! open move.
#![tactic(auto)]

mod backed;
mod beginning;
mod bytes;
mod ending;
mod freed;
mod giving;
mod mapping;
mod master;
mod nearness;
mod open_move;
mod open_pages;
mod page_set;
mod pmap;
mod replicas;
mod sharing;
mod threads;
mod untying;

pub use freed::Freed;
pub use open_move::{Change, OpenMove};
pub use pmap::Pmap;
pub use sharing::another_owner;
pub use threads::cross_threads;
