//! The frames of one claim after another.
ghost use Rattle.std.specs.Prelude.{◌≡◌, true, [], ◌∷◌, All, IfOk, IfErr, None};
ghost use Rattle.frame_words.specs.Holders.{IsMade};
ghost use Rattle.node_frames.specs.Places.{FitsShape, AreNodes};
ghost use Rattle.node_frames.specs.Left.{left_of};
ghost use Rattle.boot_frames.specs.Chain.{first_short, Tells};
ghost use Rattle.boot_frames.specs.Claims.{home_of, order_of, IsAtHome};
ghost use Rattle.boot_frames.specs.Takings.{OnlyTook, NextBy, Fills, FilledBy, TakesAll};
ghost use Rattle.boot_frames.specs.declared.claims.Claim.{Claim};
ghost use Rattle.node_frames.specs.Layout.{layout_of};

use crate::answers::Shortage;
use crate::claims::{Claim, Taker};
use crate::taken::Taken;
use base_words::{CellId, Frame, FrameList, NodeList, Shape};
use frame_words::{FrameTable, Holder};
use node_frames::{
    FindFault, a_nodes_frames_are_a_range, alone_finds_next, alone_gains_the_lowest,
    cell_frames_count_the_cache, find, has_counts_the_frames_to_come, searches_take_what_is_left,
};
use std::alloc::{AllocError, Global};

/// What came of it.
#[derive(Drop)]
pub(crate) enum Filled {
    /// All frames of the claim, in order.
    Full(FrameList),
    /// There are only so many.
    Short(u32),
}

// The next frame by the order, if there is one. Memory is wanting only before a step is made.
fn next_frame(
    alloc: Global,
    table: &FrameTable,
    holder: &mut Holder,
    shape: &Shape,
    order: &NodeList,
    home: CellId,
    taker: Taker,
) -> Result<Option<Frame>, AllocError>
    requires made { IsMade table.now holder.old }
    requires fits { FitsShape table.now (layout_of shape.now) }
    requires at_home { IsAtHome (layout_of shape.now) taker }
    requires order { order.now ≡ order_of (layout_of shape.now) taker }
    requires nodes { AreNodes (layout_of shape.now) order.now }
    requires home { home.0 ≡ home_of (layout_of shape.now) taker }
    requires alone { holder.old.view.alone ≡ true }
    ensures next { IfOk result (λ found. NextBy table.now (layout_of shape.now) taker holder.old.view found holder.new.view) }
    ensures err { IfErr result (λ _. holder.new.view ≡ holder.old.view) }
    ensures same { holder.new.table ≡ holder.old.table }
{
    let _ = taker;
    alone_finds_next();
    alone_gains_the_lowest();
    has_counts_the_frames_to_come();
    cell_frames_count_the_cache();
    match find(alloc, table, holder, shape, order, home) {
        Ok(frame) => Ok(Some(frame)),
        Err(FindFault::Memory) => Err(AllocError),
        Err(FindFault::NoFrame(_)) => Ok(None),
    }
}

// Takes the frames of a claim by the order, until it has them or none is left.
fn fill(
    alloc: Global,
    table: &FrameTable,
    holder: &mut Holder,
    shape: &Shape,
    order: &NodeList,
    home: CellId,
    claim: Claim,
) -> Result<Filled, AllocError>
    requires made { IsMade table.now holder.old }
    requires fits { FitsShape table.now (layout_of shape.now) }
    requires at_home { IsAtHome (layout_of shape.now) claim.taker }
    requires order { order.now ≡ order_of (layout_of shape.now) claim.taker }
    requires nodes { AreNodes (layout_of shape.now) order.now }
    requires home { home.0 ≡ home_of (layout_of shape.now) claim.taker }
    requires only { OnlyTook table.now.terms (layout_of shape.now) holder.old.view }
    ensures filled { IfOk result (λ filled. FilledBy table.now (layout_of shape.now) claim holder.old.view filled holder.new.view) }
    ensures same { holder.new.table ≡ holder.old.table }
{
    a_nodes_frames_are_a_range();
    searches_take_what_is_left();
    let mut frames = Vec::new(alloc);
    for taken in 0..claim.frames {
        match next_frame(alloc, table, holder, shape, order, home, claim.taker)? {
            Some(frame) => frames.push(frame)?,
            None => return Ok(Filled::Short(taken)),
        }
    }
    Ok(Filled::Full(FrameList::from_vec(frames)))
}

// The frames of one claim.
fn take_for(
    alloc: Global,
    table: &FrameTable,
    holder: &mut Holder,
    shape: &Shape,
    claim: Claim,
) -> Result<Taken, Shortage>
    requires made { IsMade table.now holder.old }
    requires fits { FitsShape table.now (layout_of shape.now) }
    requires at_home { IsAtHome (layout_of shape.now) claim.taker }
    requires only { OnlyTook table.now.terms (layout_of shape.now) holder.old.view }
    ensures none { let left = left_of (layout_of shape.now) table.now.terms.lends holder.old.view in
        IfOk result (λ taken. first_short (layout_of shape.now) (claim ∷ []) left ≡ None) }
    ensures home { IfOk result (λ taken. taken.home.0 ≡ home_of (layout_of shape.now) claim.taker) }
    ensures taken { IfOk result (λ taken. Fills table.now (layout_of shape.now) claim taken.frames holder.old.view holder.new.view) }
    ensures short { let left = left_of (layout_of shape.now) table.now.terms.lends holder.old.view in
        IfErr result (λ fault. Tells (first_short (layout_of shape.now) (claim ∷ []) left) fault) }
    ensures same { holder.new.table ≡ holder.old.table }
{
    let order = claim.taker.order(alloc, shape)?;
    let home = claim.taker.home(shape);
    match fill(alloc, table, holder, shape, &order, home, claim)? {
        Filled::Full(frames) => Ok(Taken { home, frames }),
        Filled::Short(has) => Err(claim.shortage(has)),
    }
}

// The frames of all claims in order.
pub(crate) fn take_all(
    alloc: Global,
    table: &FrameTable,
    holder: &mut Holder,
    shape: &Shape,
    claims: &[Claim],
) -> Result<Vec<Taken>, Shortage>
    requires made { IsMade table.now holder.old }
    requires fits { FitsShape table.now (layout_of shape.now) }
    requires at_home { All (λ (claim : Claim). IsAtHome (layout_of shape.now) claim.taker) claims.now }
    requires only { OnlyTook table.now.terms (layout_of shape.now) holder.old.view }
    ensures taken { IfOk result (λ taken. TakesAll table.now (layout_of shape.now) claims.now taken.items holder.old.view holder.new.view) }
    ensures short { let left = left_of (layout_of shape.now) table.now.terms.lends holder.old.view in
        IfErr result (λ fault. Tells (first_short (layout_of shape.now) claims.now left) fault) }
    ensures same { holder.new.table ≡ holder.old.table }
{
    let mut taken = Vec::new(alloc);
    for claim in claims {
        taken.push(take_for(alloc, table, holder, shape, *claim)?)?;
    }
    Ok(taken)
}
