//! What may cross threads.
use crate::holder::Holder;
use crate::table::FrameTable;

fn moves<T: Send>() {}

fn shares<T: Sync>() {}

/// A holder may go to another thread, and so may a table, which threads may also share by `&`.
pub fn cross_threads() {
    moves::<Holder>();
    moves::<FrameTable>();
    shares::<FrameTable>();
}
