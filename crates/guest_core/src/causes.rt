//! Why a move that is asked for can't be begun, but for the want of a frame.
ghost use Rattle.std.specs.Prelude.{◌≡◌, ◌<◌, ◌==◌, ◌/◌, IfSome, IfNone, None, Some, length, option_map};
ghost use Rattle.base_words.specs.declared.moves.MoveKind.TheVariants.{Replicate};
ghost use Rattle.isolation_law.specs.Causes.{by_cell, by_kind, by_migrate, by_page, first_cause, seeks_frame as seeks_frame_of};
ghost use Rattle.isolation_law.specs.Parts.{DeadCell};
ghost use Rattle.private_machine.specs.Backing.{page_at};
ghost use Rattle.guest_course.specs.CourseView.{state_of};
ghost use Rattle.guest_course.specs.CourseRules.{IsSound};
ghost use Rattle.guest_course.specs.SkipView.{wanting, cause_of};

use crate::using::cell_of;
use base_words::{CellId, FrameNo, MoveKind, NodeId, ProcId};
use guest_course::{Course, SkipCause, Wish};

/// Whether a frame lies on a node.
fn lies_on(course: &Course, frame: FrameNo, node: NodeId) -> bool
    ensures { result ≡ (frame.0 / course.now.around.site.shape.frames == node.0) }
{
    frame.0 / course.around.site.shape.frames == u32::from(node.0)
}

/// Why a page can't migrate to a node.
fn cause_to_migrate(course: &Course, wish: Wish) -> Option<SkipCause>
    requires page { wish.page.0 < length course.now.pmap.pages }
    ensures { option_map cause_of result ≡ by_migrate course.now.around.site.shape.frames wish.node.0 (page_at course.now.pmap.pages wish.page.0) }
{
    if course.pmap.replicas(wish.page) != 0 {
        return Some(SkipCause::Replicated);
    }
    if lies_on(course, course.pmap.master(wish.page), wish.node) {
        return Some(SkipCause::SameNode);
    }
    None
}

/// Why a page can't have a replica on a node: it has a frame there.
fn cause_to_replicate(course: &Course, wish: Wish) -> Option<SkipCause>
    requires page { wish.page.0 < length course.now.pmap.pages }
    ensures { option_map cause_of result ≡ by_kind course.now.around.site.shape.frames Replicate wish.node.0 (page_at course.now.pmap.pages wish.page.0) }
{
    if course
        .pmap
        .is_on(wish.page, wish.node, &course.around.site.shape)
    {
        Some(SkipCause::SameNode)
    } else {
        None
    }
}

/// Whether a move of this kind seeks a frame on the node for which it is asked.
fn seeks_frame(kind: MoveKind) -> bool
    ensures { result ≡ seeks_frame_of kind }
{
    match kind {
        MoveKind::Migrate | MoveKind::Replicate => true,
        MoveKind::Collapse | MoveKind::Break | MoveKind::TakeShared | MoveKind::GiveShared => false,
    }
}

/// The cell that has failed and keeps a processor from asking for a move: its own, or that of the node on which a frame is sought.
fn dead_cell(course: &Course, processor: ProcId, wish: Wish) -> Option<CellId>
    requires sound { IsSound course.now }
    requires processor { processor.0 < length course.now.places.items }
    ensures some { IfSome result (λ cell. by_cell (state_of course.now) processor.0 (wanting wish) ≡ Some (DeadCell cell.0)) }
    ensures none { IfNone result (by_cell (state_of course.now) processor.0 (wanting wish) ≡ by_page (state_of course.now).around.frames wish.kind wish.node.0 (page_at course.now.pmap.pages wish.page.0)) }
{
    let own = cell_of(course, processor);
    if course.is_dead(own) {
        return Some(own);
    }
    if !seeks_frame(wish.kind) {
        return None;
    }
    let there = course.cell_of_node(wish.node);
    if course.is_dead(there) {
        Some(there)
    } else {
        None
    }
}

/// Why a page can't have the move that is asked for.
fn cause_of_page(course: &Course, wish: Wish) -> Option<SkipCause>
    requires page { wish.page.0 < length course.now.pmap.pages }
    ensures { option_map cause_of result ≡ by_page course.now.around.site.shape.frames wish.kind wish.node.0 (page_at course.now.pmap.pages wish.page.0) }
{
    if course.pmap.is_shared(wish.page) {
        return Some(SkipCause::Shared);
    }
    match wish.kind {
        MoveKind::Migrate => cause_to_migrate(course, wish),
        MoveKind::Replicate => cause_to_replicate(course, wish),
        MoveKind::Collapse if course.pmap.replicas(wish.page) == 0 => Some(SkipCause::NoReplica),
        MoveKind::Collapse | MoveKind::Break | MoveKind::TakeShared | MoveKind::GiveShared => None,
    }
}

/// The first cause that keeps a move from being begun that a processor asks for.
pub(crate) fn cause_of_wish(course: &Course, processor: ProcId, wish: Wish) -> Option<SkipCause>
    requires sound { IsSound course.now }
    requires processor { processor.0 < length course.now.places.items }
    requires not_ended { course.now.ended ≡ None }
    requires page { wish.page.0 < length course.now.pmap.pages }
    ensures { option_map cause_of result ≡ first_cause (state_of course.now) processor.0 (wanting wish) }
{
    match dead_cell(course, processor, wish) {
        Some(cell) => Some(SkipCause::DeadCell(cell)),
        None => cause_of_page(course, wish),
    }
}
