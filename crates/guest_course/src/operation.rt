//! What a page is being taken shared for.
use base_words::{CellId, GuestId, Page, VcpuId};
use std::sync::Arc;

/// A packet that hands on a frame, by its place among all that came to hand; with its page.
#[derive(Drop)]
pub struct Delivery {
    pub place: usize,
    pub from: GuestId,
    pub cell: CellId,
    pub page: Arc<Box<Page>>,
}

/// What a page is being taken shared for.
#[derive(Drop)]
pub enum Operation {
    /// A virtual processor's read of this block of the disk.
    ReadsBlock(VcpuId, u32),
    /// The packet in hand.
    Delivers(Delivery),
}
