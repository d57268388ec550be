//! What may cross threads.
use crate::caller::Caller;
use crate::slots::PageSlots;

fn moves<T: Send>() {}

fn shares<T: Sync>() {}

/// A caller may go to another thread, and so may the slots, which threads may also share by `&`.
pub fn cross_threads() {
    moves::<Caller>();
    moves::<PageSlots>();
    shares::<PageSlots>();
}
