//! The search for a frame, and its release.
ghost use Rattle.std.specs.Prelude.{◌≡◌, ◌<◌, ◌/◌, IfOk, IfErr, replicate};
ghost use Rattle.frame_words.specs.Views.{frame_holds, cell_loans};
ghost use Rattle.frame_words.specs.Holders.{IsMade};
ghost use Rattle.node_frames.specs.Places.{IsOutside, cell_of_node, FitsShape, AreNodes};
ghost use Rattle.node_frames.specs.Searches.{Finds, RefusedBy, Releases};
ghost use Rattle.node_frames.specs.Layout.{layout_of};

use crate::answers::{FindFault, Shown, ShownList};
use crate::nodes::seek;
use crate::taken::Taken;
use base_words::{CellId, Frame, FrameNo, NodeList, Page, Shape};
use frame_words::{FrameTable, Holder, give_back, holds_and_looks_add_up, repay};
use std::alloc::Global;

/// Takes the first frame that it can, by the order of nodes and by frame number, with a loan of the node's cell
/// where that isn't the home cell. Where memory is wanting no step is made.
pub fn find(
    alloc: Global,
    table: &FrameTable,
    holder: &mut Holder,
    shape: &Shape,
    order: &NodeList,
    home: CellId,
) -> Result<Frame, FindFault>
    requires made { IsMade table.now holder.old }
    requires fits { FitsShape table.now (layout_of shape.now) }
    requires nodes { AreNodes (layout_of shape.now) order.now }
    ensures found { let lends = table.now.terms.lends in
        IfOk result (λ frame. Finds (layout_of shape.now) lends home.0 order.now
        frame.number.0 frame.generation holder.old.view holder.new.view) }
    ensures zeroed { IfOk result (λ frame. frame.page.value ≡ replicate 4096 0) }
    ensures refused { let lends = table.now.terms.lends in
        IfErr result (λ fault. RefusedBy (layout_of shape.now) lends home.0 order.now
        fault holder.old.view holder.new.view) }
    ensures same { holder.new.table ≡ holder.old.table }
{
    holds_and_looks_add_up();
    let page = Page::zeroed(alloc)?;
    let mut shown = vec![in alloc; Shown::AllHeld; order.len()]?;
    for (place, node) in order.as_slice().iter().enumerate() {
        match seek(table, holder, shape, *node, home) {
            Ok(Taken { number, generation }) => {
                return Ok(Frame {
                    number,
                    generation,
                    page,
                });
            }
            Err(entry) => shown[place] = entry,
        }
    }
    Err(FindFault::NoFrame(ShownList::from_vec(shown)))
}

/// Gives a frame back, and repays its loan where it lies outside the home cell.
pub fn release(table: &FrameTable, holder: &mut Holder, shape: &Shape, home: CellId, frame: FrameNo)
    requires made { IsMade table.now holder.old }
    requires fits { FitsShape table.now (layout_of shape.now) }
    requires within { frame.0 < table.now.terms.frames }
    requires holds { 0 < frame_holds holder.old.view frame.0 }
    requires loan { let node = frame.0 / shape.now.frames in
        IsOutside (layout_of shape.now) home.0 node → 0 < cell_loans holder.old.view (cell_of_node (layout_of shape.now) node) }
    ensures released { Releases (layout_of shape.now) home.0 frame.0 holder.old.view holder.new.view }
    ensures same { holder.new.table ≡ holder.old.table }
{
    holds_and_looks_add_up();
    let lender = shape.cell_of(frame);
    give_back(table, holder, frame);
    if lender != home {
        repay(table, holder, lender);
    }
}
