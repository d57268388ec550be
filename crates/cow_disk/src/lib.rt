//! A guest's disk: blocks that guests share, and over each of them what this guest wrote. No write reaches the shared blocks. And an
//! index of copies of blocks, in frames that guests may share.
#![tactic(auto)]

mod crossing;
mod disk;
mod giving;
mod index;
mod overlay;

pub use crossing::cross_threads;
pub use disk::{Disk, Wrote};
pub use giving::give_back_all;
pub use index::{BlockId, CacheFrame, Keep, SharedIndex};
