//! What one node gives: its lowest frame that can be taken, with a loan where it lies outside the home cell.
ghost use Rattle.std.specs.Prelude.{◌≡◌, ◌≢◌, ◌<◌, ◌≤◌, ◌+◌, ◌*◌, MatchOption, length};
ghost use Rattle.frame_words.specs.FrameWords.{frame_word, cell_word};
ghost use Rattle.frame_words.specs.Views.{cell_loans};
ghost use Rattle.frame_words.specs.Holders.{IsMade};
ghost use Rattle.frame_words.specs.Taking.{Takes, GivesUp};
ghost use Rattle.frame_words.specs.declared.view.StepKind.TheVariants.{Repay};
ghost use Rattle.frame_words.specs.Refusals.{AddsRefusal};
ghost use Rattle.node_frames.specs.Places.{cell_of_node, FitsShape};
ghost use Rattle.node_frames.specs.Scans.{ScannedBy, SoughtBy};
ghost use Rattle.node_frames.specs.Layout.{layout_of};

use crate::answers::Shown;
use crate::taken::Taken;
use base_words::{CellId, FrameNo, NodeId, Shape};
use frame_words::{Borrow, FrameTable, Holder, Took, borrow, holds_and_looks_add_up, repay, take};

// Takes the frame where it can: its new generation.
fn try_frame(table: &FrameTable, holder: &mut Holder, frame: FrameNo) -> Option<u32>
    requires made { IsMade table.now holder.old }
    requires within { frame.0 < table.now.terms.frames }
    ensures tried { let word = frame_word frame.0 in
        MatchOption result
        (AddsRefusal holder.old.view word holder.new.view)
        (λ generation. Takes holder.old.view word generation holder.new.view) }
    ensures same { holder.new.table ≡ holder.old.table }
{
    match take(table, holder, frame) {
        Took::Took(generation) => Some(generation),
        Took::Held(_) => None,
        Took::Spent(_) => None,
    }
}

// Takes the lowest frame that it can, from the first to before the last.
fn scan(table: &FrameTable, holder: &mut Holder, first: u32, last: u32) -> Option<Taken>
    requires made { IsMade table.now holder.old }
    requires within { last ≤ table.now.terms.frames }
    ensures scanned { ScannedBy first last holder.old.view result holder.new.view }
    ensures same { holder.new.table ≡ holder.old.table }
{
    holds_and_looks_add_up();
    for number in first..last {
        if let Some(generation) = try_frame(table, holder, FrameNo(number)) {
            return Some(Taken {
                number: FrameNo(number),
                generation,
            });
        }
    }
    None
}

// The frames of a node: from the first to before the last.
fn frames_of(table: &FrameTable, shape: &Shape, node: NodeId) -> (u32, u32)
    requires fits { FitsShape table.now (layout_of shape.now) }
    requires node { node.0 < shape.now.nodes }
    ensures first { result.0 ≡ node.0 * shape.now.frames }
    ensures last { result.1 ≡ result.0 + shape.now.frames }
    ensures within { result.1 ≤ table.now.terms.frames }
{
    let first = node.0 as u32 * shape.frames;
    (first, first + shape.frames)
}

// The lowest frame that can be taken of a node in the home cell.
fn seek_inside(
    table: &FrameTable,
    holder: &mut Holder,
    shape: &Shape,
    node: NodeId,
    home: CellId,
) -> Result<Taken, Shown>
    requires made { IsMade table.now holder.old }
    requires fits { FitsShape table.now (layout_of shape.now) }
    requires node { node.0 < shape.now.nodes }
    requires inside { cell_of_node (layout_of shape.now) node.0 ≡ home.0 }
    ensures sought { SoughtBy (layout_of shape.now) table.now.terms.lends home.0 node.0 holder.old.view result holder.new.view }
    ensures same { holder.new.table ≡ holder.old.table }
{
    holds_and_looks_add_up();
    let _home = home;
    let (first, last) = frames_of(table, shape, node);
    match scan(table, holder, first, last) {
        Some(taken) => Ok(taken),
        None => Err(Shown::AllHeld),
    }
}

// No frame of a node in another cell could be taken: its loan goes back.
fn give_up(table: &FrameTable, holder: &mut Holder, cell: CellId) -> Shown
    requires made { IsMade table.now holder.old }
    requires lends { cell.0 < length table.now.terms.lends }
    requires lent { 0 < cell_loans holder.old.view cell.0 }
    ensures shown { result ≡ Shown.AllHeld }
    ensures repaid { GivesUp holder.old.view Repay (cell_word cell.0) holder.new.view }
    ensures same { holder.new.table ≡ holder.old.table }
{
    repay(table, holder, cell);
    Shown::AllHeld
}

// The same of a node in another cell, where a frame takes a loan.
fn seek_outside(
    table: &FrameTable,
    holder: &mut Holder,
    shape: &Shape,
    node: NodeId,
    home: CellId,
    cell: CellId,
) -> Result<Taken, Shown>
    requires made { IsMade table.now holder.old }
    requires fits { FitsShape table.now (layout_of shape.now) }
    requires node { node.0 < shape.now.nodes }
    requires outside { (cell_of_node (layout_of shape.now) node.0 ≡ cell.0) × (cell.0 ≢ home.0) }
    requires lends { cell.0 < length table.now.terms.lends }
    ensures sought { SoughtBy (layout_of shape.now) table.now.terms.lends home.0 node.0 holder.old.view result holder.new.view }
    ensures same { holder.new.table ≡ holder.old.table }
{
    holds_and_looks_add_up();
    let _home = home;
    let (first, last) = frames_of(table, shape, node);
    match borrow(table, holder, cell) {
        Borrow::Lent => match scan(table, holder, first, last) {
            Some(taken) => Ok(taken),
            None => Err(give_up(table, holder, cell)),
        },
        Borrow::AtLimit(seen) => Err(Shown::AtLimit(seen)),
        Borrow::Lost(seen) => Err(Shown::Lost(seen)),
    }
}

// The lowest frame of a node that can be taken, with a loan where the node lies outside home.
pub(crate) fn seek(
    table: &FrameTable,
    holder: &mut Holder,
    shape: &Shape,
    node: NodeId,
    home: CellId,
) -> Result<Taken, Shown>
    requires made { IsMade table.now holder.old }
    requires fits { FitsShape table.now (layout_of shape.now) }
    requires node { node.0 < shape.now.nodes }
    ensures sought { SoughtBy (layout_of shape.now) table.now.terms.lends home.0 node.0 holder.old.view result holder.new.view }
    ensures same { holder.new.table ≡ holder.old.table }
{
    let cell = shape.cells.as_slice()[node.0 as usize];
    if cell == home {
        seek_inside(table, holder, shape, node, home)
    } else {
        seek_outside(table, holder, shape, node, home, cell)
    }
}
