//! What may cross threads.
use crate::seat::GuestSeat;
use crate::token::ProcToken;

fn moves<T: Send>() {}

/// A token may go to another thread, and so may a seat.
pub fn cross_threads() {
    moves::<ProcToken>();
    moves::<GuestSeat>();
}
