//! What `accept` answers. A number in an answer is the frame's word as the call saw it.
use base_words::CellId;

/// Why a packet is copied into a page of the receiver's own.
#[derive(Clone, Copy, Debug, PartialEq, Eq)]
pub enum CopyCause {
    /// The packet hands on no frame.
    Plain,
    /// Nobody holds the frame under the packet's generation, or its word changed since this call loaded it.
    Gone(u64),
    /// The frame's count is at its limit.
    Many(u64),
}

/// What becomes of a packet that was taken from a wire.
#[derive(Clone, Copy, Debug, PartialEq, Eq)]
pub enum Accept {
    /// Its cell has failed: this one.
    Discarded(CellId),
    /// Its bytes are to be copied.
    Copied(CopyCause),
    /// Its frame is held once more, and the receiver may map it.
    Remapped,
}
