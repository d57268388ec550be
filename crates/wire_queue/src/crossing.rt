//! What may cross threads.
use crate::lists::{AllPasses, PassList};
use crate::packet::WirePacket;
use crate::passes::{SendPass, TakePass};
use crate::wires::Wires;

fn moves<T: Send>() {}

fn shares<T: Sync>() {}

/// Passes may go to another thread, and so may packets and the wires, which threads may also share by `&`.
pub fn cross_threads() {
    moves::<WirePacket>();
    moves::<SendPass>();
    moves::<TakePass>();
    moves::<PassList>();
    moves::<AllPasses>();
    moves::<Wires>();
    shares::<Wires>();
}
