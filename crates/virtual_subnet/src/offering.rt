//! How a packet is offered to a wire.
ghost use Rattle.std.specs.Prelude.{◌≡◌, ◌≤◌, IfOk, IfSome};
ghost use Rattle.std.specs.Option.{option_map};
ghost use Rattle.std.specs.Arc.{arc_value};
ghost use Rattle.wire_queue.specs.Packets.{packet_of, page_of, whole_of};
ghost use Rattle.virtual_subnet.specs.Offering.{handed_of, handed_on, offered};

use base_words::{CellId, GuestId, PAGE_SIZE, Page, SharedFrame};
use std::alloc::{AllocError, Global};
use std::sync::Arc;
use wire_queue::{Body, WirePacket};

/// The same frame, with another owner of its page.
fn another(frame: &SharedFrame) -> Result<SharedFrame, AllocError>
    ensures same { IfOk result (λ other. handed_of other ≡ handed_of frame.now) }
    ensures page { IfOk result (λ other. arc_value other.page ≡ arc_value frame.now.page) }
{
    Ok(SharedFrame {
        number: frame.number,
        generation: frame.generation,
        page: Arc::try_clone(&frame.page)?,
    })
}

/// A page of the same bytes.
fn copy_of(alloc: Global, page: &Page) -> Result<Box<Page>, AllocError>
    ensures { IfOk result (λ copy. copy.value ≡ page.now) }
{
    let mut copy = Page::zeroed(alloc)?;
    copy.copy_from(page);
    Ok(copy)
}

/// The body of a packet: the shared frame where the packet is a whole page of one, and else a copy.
fn body_of(
    alloc: Global,
    page: &Page,
    length: u32,
    shared: Option<&SharedFrame>,
) -> Result<Body, AllocError>
    requires { IfSome shared (λ frame. (arc_value frame.now.page).value ≡ page.now) }
    ensures page { IfOk result (λ body. page_of body ≡ page.now) }
    ensures whole { IfOk result (λ body. whole_of body ≡ handed_on length (option_map (λ frame. handed_of frame.now) shared.entry)) }
{
    match shared {
        Some(frame) if length == PAGE_SIZE => Ok(Body::Whole(another(frame)?)),
        _ => Ok(Body::Plain(copy_of(alloc, page)?)),
    }
}

/// The packet that a guest sends: the first `length` bytes of a page, 1 to 4096, which lies on this cell. `shared` is the frame in
/// which the page lies, where others may hold it too. A whole page of a shared frame hands the frame on; any other packet has a
/// copy of the page, of which the bytes past `length` have no meaning. `Err` for want of memory.
pub fn offer(
    alloc: Global,
    page: &Page,
    length: u32,
    shared: Option<&SharedFrame>,
    cell: CellId,
    from: GuestId,
) -> Result<WirePacket, AllocError>
    requires some { 1 ≤ length }
    requires few { length ≤ 4096 }
    requires same { IfSome shared (λ frame. (arc_value frame.now.page).value ≡ page.now) }
    ensures { IfOk result (λ packet. packet_of packet
        ≡ offered page.now length (option_map (λ frame. handed_of frame.now) shared.entry) cell.0 from.0) }
{
    Ok(WirePacket {
        from,
        length,
        cell,
        body: body_of(alloc, page, length, shared)?,
    })
}
