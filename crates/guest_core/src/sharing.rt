//! Pages that a guest shares with others: a frame of theirs is held once more, or one is found so that a page can be given.
ghost use Rattle.std.specs.Prelude.{◌≡◌, ◌<◌, ℕ, Ok, Some, IfOk, IfSome, IfNone, length};
ghost use Rattle.std.specs.Bool.{OnTrue, OnFalse};
ghost use Rattle.private_machine.specs.Backing.{Copy};
ghost use Rattle.frame_words.specs.FrameWords.{frame_word};
ghost use Rattle.frame_words.specs.Holders.{IsMade};
ghost use Rattle.frame_words.specs.Refusals.{AddsShare, AddsShareRefusal};
ghost use Rattle.pmap_table.specs.Frames.{shared_copy_of};
ghost use Rattle.node_frames.specs.Layout.{layout_of};
ghost use Rattle.node_frames.specs.Places.{AreNodes};
ghost use Rattle.isolation_law.specs.Surroundings.{cell_of_frame, home_cell as home_of};
ghost use Rattle.guest_course.specs.CourseView.{state_of};
ghost use Rattle.guest_course.specs.CourseRules.{IsSound};
ghost use Rattle.guest_course.specs.EmulateCalls.{LeavesAct};
ghost use Rattle.guest_course.specs.Posting.{to_give};
ghost use Rattle.guest_course.specs.TakingCalls.{SharesBlock};
ghost use Rattle.guest_core.specs.Blocks.{blocks_of, LieOnCell};
ghost use Rattle.guest_core.specs.Frames.{AreSpread, HoldsToo, TakesNone};
ghost use Rattle.guest_core.specs.GuestView.{shared_by};
ghost use Rattle.guest_core.specs.Holding.{FitsAround, IsHolding, frames_around};
ghost use Rattle.guest_core.specs.Sharing.{lives_on, spare_nodes as spare_nodes_of, HasCopy};
ghost use Rattle.guest_core.specs.TurnParts.{SharesPage};
ghost use Rattle.guest_core.specs.Using.{AreUses};

use crate::Resources;
use crate::frames::{frames_are_few, take};
use crate::releasing::home_cell;
use crate::using::count_frame;
use base_words::{Frame, NodeList, Ppn, SharedFrame, VcpuId};
use cell_depend::Uses;
use cow_disk::SharedIndex;
use frame_words::{FrameTable, Holder, Share, share};
use guest_course::{Course, acts_are_at_hand};
use guest_devs::DevAct;
use node_frames::{FindFault, boot_order};
use pmap_table::another_owner;
use std::alloc::{AllocError, Global};

/// How an act that was left shares its page, so that no bytes are copied.
#[derive(Drop)]
pub(crate) enum Sharing {
    /// The page into which this block comes is to be taken shared, with this frame, which is held for it.
    Take(u32, Ppn, SharedFrame),
    /// The page from which a packet goes is to be given, with this frame, which will be its spare.
    Give(Ppn, Frame),
    /// It doesn't.
    Nothing,
}

/// The frame with a copy of a block, as the disk was given, on the guest's home cell, if there is one.
fn copy_of_block(
    course: &Course,
    indexes: &[SharedIndex],
    disk: u32,
    block: u32,
) -> Result<Option<SharedFrame>, AllocError>
    requires at_home { course.now.around.home.0 < course.now.around.site.shape.nodes }
    requires block { block < length course.now.disk }
    ensures some { IfOk result (λ found. IfSome found (λ f. HasCopy (blocks_of indexes.now (home_of (state_of course.now).around)) disk (state_of course.now) block (shared_copy_of f))) }
    ensures none { IfOk result (λ found. IfNone found ((copy : Copy) → HasCopy (blocks_of indexes.now (home_of (state_of course.now).around)) disk (state_of course.now) block copy → ⊥)) }
{
    let home = home_cell(&course.around);
    let Some(index) = indexes.get(home.0 as usize) else {
        return Ok(None);
    };
    let Some(frame) = index.find(disk, block) else {
        return Ok(None);
    };
    match course.disk.base_block(block) {
        Some(given) if frame.page.equals(given) => Ok(Some(another_owner(frame)?)),
        _ => Ok(None),
    }
}

/// Holds a frame of the home cell once more, and counts it, where somebody holds it under its generation still.
pub(crate) fn hold_too(
    course: &Course,
    holder: &mut Holder,
    uses: &mut Uses,
    table: &FrameTable,
    frame: &SharedFrame,
) -> bool
    requires made { IsMade table.now holder.old }
    requires fits { FitsAround table.now (state_of course.now).around }
    requires sound { IsSound course.now }
    requires spread { AreSpread (state_of course.now) }
    requires within { frame.now.number.0 < frames_around (state_of course.now).around }
    requires at_home { cell_of_frame (state_of course.now).around frame.now.number.0 ≡ home_of (state_of course.now).around }
    requires holding { IsHolding (state_of course.now) holder.old.view }
    requires used { AreUses (state_of course.now) uses.old }
    ensures holds { OnTrue result (HoldsToo (state_of course.now) (shared_copy_of frame.now) holder.new.view uses.new) }
    ensures adds { OnTrue result (AddsShare holder.old.view (frame_word frame.now.number.0) frame.now.generation holder.new.view) }
    ensures refuses { OnFalse result (AddsShareRefusal holder.old.view (frame_word frame.now.number.0) frame.now.generation holder.new.view) }
    ensures none { OnFalse result (TakesNone (state_of course.now) holder.new.view uses.old uses.new) }
    ensures same { holder.new.table ≡ holder.old.table }
{
    frames_are_few(course);
    match share(table, holder, frame.number, frame.generation) {
        Share::Shared => {
            count_frame(uses, &course.around, frame.number);
            true
        }
        Share::Gone(_) => false,
        Share::Many(_) => false,
    }
}

/// Holds the frame with a copy of a block, where there is one and somebody holds it still, so that the page can be taken shared.
fn share_block(
    course: &Course,
    holder: &mut Holder,
    uses: &mut Uses,
    resources: &Resources,
    disk: u32,
    vcpu: VcpuId,
    act: DevAct,
    block: u32,
    page: Ppn,
) -> Result<Sharing, AllocError>
    requires made { IsMade resources.now.table.now holder.old }
    requires fits { FitsAround resources.now.table.now (state_of course.now).around }
    requires at_home { (state_of course.now).around.home < length (state_of course.now).around.nodes }
    requires sound { IsSound course.now }
    requires spread { AreSpread (state_of course.now) }
    requires left { (p : ℕ) × LeavesAct (state_of course.now) p vcpu.0 act (state_of course.now) }
    requires may { SharesBlock (state_of course.now) vcpu.0 act block page.0 }
    requires blocks { LieOnCell (state_of course.now).around (home_of (state_of course.now).around) (blocks_of resources.now.indexes.now (home_of (state_of course.now).around)) }
    requires holding { IsHolding (state_of course.now) holder.old.view }
    requires used { AreUses (state_of course.now) uses.old }
    ensures shares { SharesPage (shared_by resources.now) disk (state_of course.now) vcpu.0 act result holder.old.view holder.new.view uses.old uses.new }
    ensures same { holder.new.table ≡ holder.old.table }
{
    acts_are_at_hand();
    let Some(frame) = copy_of_block(course, resources.indexes, disk, block)? else {
        return Ok(Sharing::Nothing);
    };
    if hold_too(course, holder, uses, resources.table, &frame) {
        Ok(Sharing::Take(block, page, frame))
    } else {
        Ok(Sharing::Nothing)
    }
}

/// The nodes on which a spare is sought: those of a boot in their order, without those of cells that have failed.
fn spare_nodes(alloc: Global, course: &Course) -> Result<NodeList, AllocError>
    requires sound { IsSound course.now }
    requires at_home { course.now.around.home.0 < course.now.around.site.shape.nodes }
    ensures order { IfOk result (λ order. order ≡ spare_nodes_of (state_of course.now) (layout_of course.now.around.site.shape)) }
    ensures nodes { IfOk result (λ order. AreNodes (layout_of course.now.around.site.shape) order) }
{
    let all = boot_order(alloc, &course.around.site.shape, course.around.home)?;
    let mut order = NodeList::new(alloc);
    for node in all.as_slice() {
        if !course.is_dead(course.cell_of_node(*node)) {
            order.push(*node)?;
        }
    }
    Ok(order)
}

/// Finds a frame that will be the spare of a page, so that the page can be given.
fn share_page(
    alloc: Global,
    course: &Course,
    holder: &mut Holder,
    uses: &mut Uses,
    resources: &Resources,
    disk: u32,
    vcpu: VcpuId,
    act: DevAct,
    page: Ppn,
) -> Result<Sharing, AllocError>
    requires made { IsMade resources.now.table.now holder.old }
    requires fits { FitsAround resources.now.table.now (state_of course.now).around }
    requires at_home { (state_of course.now).around.home < length (state_of course.now).around.nodes }
    requires sound { IsSound course.now }
    requires spread { AreSpread (state_of course.now) }
    requires left { (p : ℕ) × LeavesAct (state_of course.now) p vcpu.0 act (state_of course.now) }
    requires gives { to_give (state_of course.now) vcpu.0 act ≡ Some page.0 }
    requires page { page.0 < length course.now.pmap.pages }
    requires holding { IsHolding (state_of course.now) holder.old.view }
    requires used { AreUses (state_of course.now) uses.old }
    ensures shares { SharesPage (shared_by resources.now) disk (state_of course.now) vcpu.0 act result holder.old.view holder.new.view uses.old uses.new }
    ensures same { holder.new.table ≡ holder.old.table }
{
    acts_are_at_hand();
    let order = spare_nodes(alloc, course)?;
    match take(alloc, course, holder, uses, resources.table, &order) {
        Ok(spare) => Ok(Sharing::Give(page, spare)),
        Err(FindFault::NoFrame(_)) => Ok(Sharing::Nothing),
        Err(FindFault::Memory) => Err(AllocError),
    }
}

/// How an act that was left shares its page, which has no move. Want of memory comes only before a frame's word was touched.
pub(crate) fn share_for(
    alloc: Global,
    course: &Course,
    holder: &mut Holder,
    uses: &mut Uses,
    resources: &Resources,
    disk: u32,
    vcpu: VcpuId,
    act: DevAct,
) -> Result<Sharing, AllocError>
    requires made { IsMade resources.now.table.now holder.old }
    requires fits { FitsAround resources.now.table.now (state_of course.now).around }
    requires at_home { (state_of course.now).around.home < length (state_of course.now).around.nodes }
    requires sound { IsSound course.now }
    requires spread { AreSpread (state_of course.now) }
    requires left { (p : ℕ) × LeavesAct (state_of course.now) p vcpu.0 act (state_of course.now) }
    requires blocks { LieOnCell (state_of course.now).around (home_of (state_of course.now).around) (blocks_of resources.now.indexes.now (home_of (state_of course.now).around)) }
    requires holding { IsHolding (state_of course.now) holder.old.view }
    requires used { AreUses (state_of course.now) uses.old }
    ensures shares { SharesPage (shared_by resources.now) disk (state_of course.now) vcpu.0 act result holder.old.view holder.new.view uses.old uses.new }
    ensures same { holder.new.table ≡ holder.old.table }
{
    acts_are_at_hand();
    if let Some((block, page)) = course.to_share(vcpu, act) {
        return share_block(
            course, holder, uses, resources, disk, vcpu, act, block, page,
        );
    }
    match course.to_give(vcpu, act) {
        Some(page) => share_page(
            alloc, course, holder, uses, resources, disk, vcpu, act, page,
        ),
        None => Ok(Sharing::Nothing),
    }
}
