//! What may cross threads.
use crate::Journal;

fn moves<T: Send>() {}

fn shares<T: Sync>() {}

/// A journal may go to another thread, and threads may share it by `&`.
pub fn cross_threads() {
    moves::<Journal>();
    shares::<Journal>();
}
