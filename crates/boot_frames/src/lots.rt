//! What cells and guests get.
use base_words::FrameList;
use frame_words::Holder;

/// The frames of a cache, or those of a guest in order of its pages, and the holder that holds them and their loans.
#[derive(Drop)]
pub struct Lot {
    pub frames: FrameList,
    pub holder: Holder,
}

/// A lot for each cell in order, and for each guest in order.
#[derive(Drop)]
pub struct Placed {
    pub caches: Vec<Lot>,
    pub guests: Vec<Lot>,
}
