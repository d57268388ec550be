//! What goes on a wire.
ghost use Rattle.std.specs.Prelude.{◌≡◌, length};
ghost use Rattle.wire_queue.specs.Packets.{page_of};

use base_words::{CellId, GuestId, Page, SharedFrame};

/// The bytes of a packet: the frame in which they lie, which is handed on, or a copy of them.
#[derive(Drop)]
pub enum Body {
    /// A frame that others hold too.
    Whole(SharedFrame),
    /// A page of the packet's own.
    Plain(Box<Page>),
}

/// A packet on a wire: its sender, how many bytes it has, the cell of the frame that it was sent from, and the page whose first
/// bytes are its bytes.
#[derive(Drop)]
pub struct WirePacket {
    pub from: GuestId,
    pub length: u32,
    pub cell: CellId,
    pub body: Body,
}

impl WirePacket {
    /// The page whose first bytes are the packet's.
    pub fn page(&self) -> &Page
        ensures page { result.now ≡ page_of self.now.body }
        ensures whole { length (page_of self.now.body) ≡ 4096 }
    {
        let page: &Page = match &self.body {
            Body::Whole(frame) => &frame.page,
            Body::Plain(page) => page,
        };
        let _whole = page.bytes();
        page
    }
}
