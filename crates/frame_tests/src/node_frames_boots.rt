//! A caller that is alone takes frame after frame: how many it gets is told by what was left before.
ghost use Rattle.std.specs.Prelude.{◌≡◌, ◌<◌, true, min, IfOk};
ghost use Rattle.frame_words.specs.Holders.{IsMade};
ghost use Rattle.node_frames.specs.Places.{FitsShape};
ghost use Rattle.node_frames.specs.BootOrder.{boot_nodes};
ghost use Rattle.node_frames.specs.Left.{left_of, has, after_searches};
ghost use Rattle.node_frames.specs.Layout.{layout_of};

use base_words::{CellId, NodeId, NodeList, Shape};
use frame_words::{FrameTable, Holder};
use node_frames::{
    FindFault, alone_finds_next, boot_order_has_each_node, find, has_counts_the_frames_to_come,
    searches_take_what_is_left,
};
use std::alloc::{AllocError, Global};

/// Takes frames by the boot order from a node until there are enough or none is left: how many.
pub(crate) fn fill(
    alloc: Global,
    table: &FrameTable,
    holder: &mut Holder,
    shape: &Shape,
    order: &NodeList,
    start: NodeId,
    home: CellId,
    pages: u32,
) -> Result<u32, AllocError>
    requires made { IsMade table.now holder.old }
    requires fits { FitsShape table.now (layout_of shape.now) }
    requires start { start.0 < shape.now.nodes }
    requires order { order.now ≡ boot_nodes (layout_of shape.now) start }
    requires alone { holder.old.view.alone ≡ true }
    ensures most { let left = left_of (layout_of shape.now) table.now.terms.lends holder.old.view in
        IfOk result (λ taken. taken ≡ min pages (has (layout_of shape.now) home.0 left)) }
    ensures left { let lends = table.now.terms.lends in
        IfOk result (λ taken. left_of (layout_of shape.now) lends holder.new.view
        ≡ after_searches (layout_of shape.now) home.0 order.now taken (left_of (layout_of shape.now) lends holder.old.view)) }
    ensures alone { IfOk result (λ taken. holder.new.view.alone ≡ true) }
    ensures same { holder.new.table ≡ holder.old.table }
{
    let _ = start;
    alone_finds_next();
    boot_order_has_each_node();
    has_counts_the_frames_to_come();
    searches_take_what_is_left();
    for taken in 0..pages {
        match find(alloc, table, holder, shape, order, home) {
            Ok(_) => {}
            Err(FindFault::Memory) => return Err(AllocError),
            Err(FindFault::NoFrame(_)) => return Ok(taken),
        }
    }
    Ok(pages)
}
