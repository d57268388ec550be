//! A guest's frames, as moves of its pages take them and give them back.
ghost use Rattle.std.specs.Prelude.{◌≡◌, ◌<◌, ◌^◌, ℕ, true, [], ◌∷◌, None, IfOk, IfErr, length};
ghost use Rattle.frame_words.specs.Holders.{IsMade};
ghost use Rattle.node_frames.specs.Layout.{layout_of};
ghost use Rattle.node_frames.specs.Places.{AreNodes};
ghost use Rattle.private_machine.specs.Backing.{page_at};
ghost use Rattle.pmap_table.specs.OpenMoves.{change_of};
ghost use Rattle.isolation_law.specs.Causes.{first_cause, seeks_frame};
ghost use Rattle.isolation_law.specs.CellUse.{used_frames};
ghost use Rattle.isolation_law.specs.Holdings.{holds};
ghost use Rattle.isolation_law.specs.Surroundings.{home_cell as home_of};
ghost use Rattle.guest_course.specs.CourseView.{state_of};
ghost use Rattle.guest_course.specs.CourseRules.{IsSound};
ghost use Rattle.guest_course.specs.SkipView.{wanting};
ghost use Rattle.guest_core.specs.Frames.{ToGiveBack, ToCountNoMore, HasTaken, HasTakenFor, TakesNone, Refuses, AreSpread};
ghost use Rattle.guest_core.specs.Holding.{IsHolding, FitsAround, frames_around};
ghost use Rattle.guest_core.specs.MoveCalls.{IsPlanned};
ghost use Rattle.guest_core.specs.Using.{AreUses};

use crate::releasing::home_cell;
use crate::using::{count_frame, count_frame_no_more};
use base_words::{Frame, FrameNo, MoveKind, NodeId, NodeList};
use cell_depend::Uses;
use frame_words::{FrameTable, Holder};
use guest_course::{Course, Wish};
use node_frames::{FindFault, find, release};
use pmap_table::{Change, Freed};
use std::alloc::{AllocError, Global};

/// Gives the frames back, with their loans, that a move has freed.
pub(crate) fn give_back(course: &Course, holder: &mut Holder, table: &FrameTable, freed: Freed)
    requires made { IsMade table.now holder.old }
    requires fits { FitsAround table.now (state_of course.now).around }
    requires at_home { (state_of course.now).around.home < length (state_of course.now).around.nodes }
    requires freed { ToGiveBack (state_of course.now) freed holder.old.view }
    ensures holding { IsHolding (state_of course.now) holder.new.view }
    ensures same { holder.new.table ≡ holder.old.table }
{
    let home = home_cell(&course.around);
    let mut freed = freed;
    while let Some(frame) = freed.pop() {
        release(table, holder, &course.around.site.shape, home, frame);
    }
}

/// Counts the frame no more that ties the guest to a cell no longer once a move has ended, if there is one.
pub(crate) fn count_untied(course: &Course, uses: &mut Uses, untied: Option<FrameNo>)
    requires { ToCountNoMore (state_of course.now) untied uses.old }
    ensures { AreUses (state_of course.now) uses.new }
{
    match untied {
        Some(frame) => count_frame_no_more(uses, &course.around, frame),
        None => {}
    }
}

/// A list of one node.
fn one_node(alloc: Global, node: NodeId) -> Result<NodeList, AllocError>
    ensures { IfOk result (λ order. order ≡ node ∷ []) }
{
    let mut order = NodeList::new(alloc);
    order.push(node)?;
    Ok(order)
}

/// A guest has not too many frames to be counted: those of its pages, each of which has few as they lie on different nodes, and the
/// spares.
pub(crate) fn frames_are_few(course: &Course)
    requires sound { IsSound course.now }
    requires within { (frame : ℕ) → 0 < holds (state_of course.now) frame → frame < frames_around (state_of course.now).around }
    requires spread { AreSpread (state_of course.now) }
    ensures { length (used_frames (state_of course.now)) < 2 ^ 33 }
{
    let _spares = course.pmap.spares();
}

/// Takes a frame on the first of these nodes that has one, with a loan where it lies outside the home cell, and counts it. A refusal leaves
/// the guest's frames as they are; want of memory has looked at none.
pub(crate) fn take(
    alloc: Global,
    course: &Course,
    holder: &mut Holder,
    uses: &mut Uses,
    table: &FrameTable,
    order: &NodeList,
) -> Result<Frame, FindFault>
    requires made { IsMade table.now holder.old }
    requires fits { FitsAround table.now (state_of course.now).around }
    requires at_home { (state_of course.now).around.home < length (state_of course.now).around.nodes }
    requires sound { IsSound course.now }
    requires spread { AreSpread (state_of course.now) }
    requires nodes { AreNodes (layout_of course.now.around.site.shape) order.now }
    requires holding { IsHolding (state_of course.now) holder.old.view }
    requires used { AreUses (state_of course.now) uses.old }
    ensures taken { IfOk result (λ frame. HasTaken (state_of course.now) table.now.terms.lends order.now frame holder.old.view holder.new.view uses.new) }
    ensures refused { IfErr result (λ fault. Refuses (state_of course.now) table.now.terms.lends (home_of (state_of course.now).around) order.now fault holder.old.view holder.new.view) }
    ensures none { IfErr result (λ fault. TakesNone (state_of course.now) holder.new.view uses.old uses.new) }
    ensures same { holder.new.table ≡ holder.old.table }
{
    frames_are_few(course);
    let home = home_cell(&course.around);
    let frame = find(alloc, table, holder, &course.around.site.shape, order, home)?;
    count_frame(uses, &course.around, frame.number);
    Ok(frame)
}

/// What a move does that is asked for and that no cause keeps from being begun, with the frame that it takes on its node where it takes
/// one. A refusal leaves the guest's frames as they are.
pub(crate) fn change_for(
    alloc: Global,
    course: &Course,
    holder: &mut Holder,
    uses: &mut Uses,
    table: &FrameTable,
    wish: Wish,
) -> Result<Change, FindFault>
    requires made { IsMade table.now holder.old }
    requires fits { FitsAround table.now (state_of course.now).around }
    requires at_home { (state_of course.now).around.home < length (state_of course.now).around.nodes }
    requires sound { IsSound course.now }
    requires spread { AreSpread (state_of course.now) }
    requires node { wish.node.0 < length (state_of course.now).around.nodes }
    requires holding { IsHolding (state_of course.now) holder.old.view }
    requires used { AreUses (state_of course.now) uses.old }
    requires not_ended { course.now.ended ≡ None }
    requires page { wish.page.0 < length course.now.pmap.pages }
    requires rests { (page_at course.now.pmap.pages wish.page.0).move ≡ None }
    requires planned { IsPlanned (state_of course.now).around (wanting wish) }
    requires no_cause { (p : ℕ) × (first_cause (state_of course.now) p (wanting wish) ≡ None) }
    ensures taken { IfOk result (λ change. HasTakenFor (state_of course.now) (wanting wish) (change_of change) holder.new.view uses.new) }
    ensures refused { IfErr result (λ fault. Refuses (state_of course.now) table.now.terms.lends (home_of (state_of course.now).around) (wish.node ∷ []) fault holder.old.view holder.new.view) }
    ensures none { IfErr result (λ fault. TakesNone (state_of course.now) holder.new.view uses.old uses.new) }
    ensures seeks { IfErr result (λ fault. seeks_frame wish.kind ≡ true) }
    ensures same { holder.new.table ≡ holder.old.table }
{
    match wish.kind {
        MoveKind::Migrate => {
            let order = one_node(alloc, wish.node)?;
            let frame = take(alloc, course, holder, uses, table, &order)?;
            Ok(Change::Migrate(frame))
        }
        MoveKind::Replicate => {
            let order = one_node(alloc, wish.node)?;
            let frame = take(alloc, course, holder, uses, table, &order)?;
            Ok(Change::Replicate(frame))
        }
        MoveKind::Collapse => Ok(Change::Collapse),
        MoveKind::Break | MoveKind::TakeShared | MoveKind::GiveShared => unreachable!(),
    }
}
