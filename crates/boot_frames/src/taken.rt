//! What was taken for a cell or a guest.
use base_words::{CellId, FrameList};

/// The frames, and the cell whose frames take no loan.
#[derive(Drop)]
pub(crate) struct Taken {
    pub(crate) home: CellId,
    pub(crate) frames: FrameList,
}
