//! Console input, and packets between guests, as lists.
use crate::{Bytes, Sequence};

/// Bytes that come to a guest's console once its first virtual processor has made so many own steps.
#[derive(Debug, Drop)]
pub struct InputEntry {
    pub at: u64,
    pub text: Bytes,
}

/// The input of one guest, in the order in which it comes.
pub type InputList = Sequence<InputEntry>;

/// The input of each guest, by its number.
pub type InputLists = Sequence<InputList>;

/// A packet that a guest sent, and the number of the guest that it is for.
#[derive(Debug, Drop)]
pub struct SentPacket {
    pub to: u32,
    pub bytes: Bytes,
}

/// The packets that a guest sent, in their order.
pub type PacketList = Sequence<SentPacket>;
