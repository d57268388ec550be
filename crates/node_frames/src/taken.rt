//! A frame that was taken.
use base_words::FrameNo;

/// The frame, and the generation under which it is held.
#[derive(Clone, Copy)]
pub(crate) struct Taken {
    pub(crate) number: FrameNo,
    pub(crate) generation: u32,
}
