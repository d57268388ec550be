//! What may cross threads.
use crate::{Disk, SharedIndex};
use base_words::Blocks;
use std::sync::Arc;

fn moves<T: Send>() {}

fn shares<T: Sync>() {}

/// A disk may go to another thread, and so may its base, which disks on other threads share; and threads may share an index.
pub fn cross_threads() {
    moves::<Disk>();
    shares::<Disk>();
    moves::<Arc<Blocks>>();
    shares::<Arc<Blocks>>();
    moves::<SharedIndex>();
    shares::<SharedIndex>();
}
