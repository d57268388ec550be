//! The cells' caches of disk blocks: each an index over its cell's frames, filled at boot and only read afterwards.
#![tactic(auto)]

mod caches;
mod filling;

pub use caches::{Caches, end_caches};
pub use filling::{HomeDisk, fill_caches};
