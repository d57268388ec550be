//! How a packet that was taken from a wire is accepted.
ghost use Rattle.std.specs.Prelude.{◌≡◌, ◌↔◌, IsTrue};
ghost use Rattle.frame_words.specs.Holders.{IsMade};
ghost use Rattle.wire_queue.specs.Packets.{packet_of};
ghost use Rattle.virtual_subnet.specs.Accepting.{Accepts, HasFailed, HasFrameBelow};

use crate::answers::{Accept, CopyCause};
use base_words::{CellId, CellSet, MOST_CELLS};
use frame_words::{FrameTable, Holder, Share, share};
use wire_queue::{Body, WirePacket};

/// Whether a cell is among those that failed.
fn has_failed(dead: CellSet, cell: CellId) -> bool
    ensures { IsTrue result ↔ HasFailed dead cell.0 }
{
    usize::from(cell.0) < MOST_CELLS && dead.has(cell)
}

/// What becomes of a packet that the holder's guest took from a wire, where these cells have failed. It is discarded where its cell
/// is among them. Else, where it hands on a frame that somebody still holds under its generation, the holder holds that frame once
/// more; and where not, its bytes are to be copied. It takes no memory and waits for nobody.
pub fn accept(table: &FrameTable, holder: &mut Holder, dead: CellSet, packet: &WirePacket) -> Accept
    requires made { IsMade table.now holder.old }
    requires within { HasFrameBelow table.now.terms.frames (packet_of packet.now) }
    ensures answer { Accepts dead (packet_of packet.now) holder.old.view result holder.new.view }
    ensures same { holder.new.table ≡ holder.old.table }
{
    if has_failed(dead, packet.cell) {
        return Accept::Discarded(packet.cell);
    }
    let Body::Whole(frame) = &packet.body else {
        return Accept::Copied(CopyCause::Plain);
    };
    match share(table, holder, frame.number, frame.generation) {
        Share::Shared => Accept::Remapped,
        Share::Gone(seen) => Accept::Copied(CopyCause::Gone(seen)),
        Share::Many(seen) => Accept::Copied(CopyCause::Many(seen)),
    }
}
