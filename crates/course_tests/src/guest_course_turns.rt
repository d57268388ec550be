//! Turns of a guest on processor 0, for the tests: what is to be done for moves of its pages, and the entries between. A page is shared
//! wherever it can be: the copy of block n lies in frame 6 + n, and frame 3 is the spare for a page that is given.
ghost use Rattle.std.specs.Prelude.{◌≡◌, ◌<◌, Some, length, false};
ghost use Rattle.std.specs.Bool.{OnTrue};
ghost use Rattle.std.specs.Vec.{vec_len, vec_capacity};
ghost use Rattle.private_machine.specs.Backing.{Copy};
ghost use Rattle.pmap_table.specs.Frames.{shared_copy_of};
ghost use Rattle.isolation_law.specs.GuestState.{block as block_of, is_dead};
ghost use Rattle.isolation_law.specs.MoveRows.{IsForeign};
ghost use Rattle.guest_course.specs.CourseRules.{AllStand, IsSound};
ghost use Rattle.guest_course.specs.CourseView.{state_of, surroundings};
ghost use Rattle.guest_course.specs.EmulateCalls.{LeavesAct};
ghost use Rattle.guest_course.specs.Hurdles.{ActIsFree};
ghost use Rattle.guest_course.specs.Posting.{to_give, AreWithin};
ghost use Rattle.guest_course.specs.StepCalls.{MayStep};
ghost use Rattle.course_tests.specs.Lacking.{LacksFrame};
ghost use Rattle.isolation_law.specs.Surroundings.{cell_of_frame, cell_of_processor};

use crate::telling::gave;
use base_words::{
    CellId, Frame, FrameNo, HwStep, MoveKind, NodeId, Page, Ppn, ProcId, SharedFrame, VcpuId,
};
use guest_course::{Course, Entry, Errand, Hurdle, Outgoing, acts_are_at_hand};
use guest_devs::DevAct;
use pmap_table::Pmap;
use std::alloc::Global;
use std::process::Abort;
use std::sync::Arc;
use wire_queue::Body;

/// The processor on which the guest runs.
pub(crate) const PROCESSOR: ProcId = ProcId(0);

/// The frame of the copy of block 0.
const FIRST_COPY: u32 = 6;

/// The spare for a page that is given.
const SPARE: FrameNo = FrameNo(3);

/// What went on the wire of another guest: the frame that it hands on, if it does, how many bytes it has, and the first of them.
#[derive(Clone, Copy, Debug, PartialEq, Eq)]
pub(crate) struct Sent {
    pub(crate) frame: Option<FrameNo>,
    pub(crate) length: u32,
    pub(crate) first: u8,
}

/// What a turn did.
#[derive(Clone, Copy, Debug, PartialEq, Eq)]
pub(crate) enum Did {
    /// The processor stepped by itself.
    Direct,
    /// The processor's TLB got a half.
    Refilled,
    /// The monitor made the step.
    Emulated,
    /// The same, by which this went to another guest.
    Sent(Sent),
    /// A move of this page began.
    Begun(Ppn, MoveKind),
    /// The processor acknowledged the move of this page.
    Acknowledged(Ppn),
    /// The move of this page ended, which freed this frame as the last, if one.
    Finished(Ppn, Option<FrameNo>),
    /// The monitor made the step, by which this page was taken shared; the same.
    Took(Ppn, Option<FrameNo>),
    /// The step is on this page, whose move isn't over.
    Waits(Ppn),
}

/// A frame with a copy of a block, as the disk was given.
fn copy_of_block(rt: &impl Abort, alloc: Global, course: &Course, block: u32) -> SharedFrame
    requires { block < length course.now.disk }
    ensures { (shared_copy_of result).bytes ≡ (block_of (state_of course.now) block).given }
{
    let mut page = gave(rt, Page::zeroed(alloc));
    match course.disk.base_block(block) {
        Some(given) => page.copy_from(given),
        None => unreachable!(),
    }
    SharedFrame {
        number: FrameNo(FIRST_COPY.saturating_add(block)),
        generation: 1,
        page: gave(rt, Arc::new(alloc, page)),
    }
}

/// Whether a page surely has nothing to do with a frame: another one is its master, and it has no replicas and no move.
fn lacks(pmap: &Pmap, page: Ppn, frame: FrameNo) -> bool
    requires { page.0 < length pmap.now.pages }
    ensures { OnTrue result (LacksFrame frame.0 pmap.now.pages page.0) }
{
    pmap.master(page) != frame && pmap.replicas(page) == 0 && pmap.open_move(page).is_none()
}

/// Whether the guest surely holds no frame of this number: it has no spares, and each of its pages lacks it.
fn is_foreign(course: &Course, frame: FrameNo) -> bool
    ensures { OnTrue result ((target : Copy) → target.frame ≡ frame.0 → IsForeign (state_of course.now) target) }
{
    if course.pmap.spares() != 0 {
        return false;
    }
    for page in 0..course.pmap.len() {
        if !lacks(&course.pmap, Ppn(page), frame) {
            return false;
        }
    }
    true
}

/// Whether each page lies in a frame of the machine, of not more than eight nodes.
fn are_within(course: &Course) -> bool
    ensures { OnTrue result (AreWithin (state_of course.now)) }
{
    let shape = &course.around.site.shape;
    let nodes = shape.cells.as_slice().len();
    if nodes > 8 {
        return false;
    }
    let frames = nodes as u64 * u64::from(shape.frames);
    for page in 0..course.pmap.len() {
        if u64::from(course.pmap.master(Ppn(page)).0) >= frames {
            return false;
        }
    }
    true
}

/// What goes on a wire.
fn on_wire(out: &Outgoing) -> Sent {
    let frame = match &out.packet.body {
        Body::Whole(frame) => Some(frame.number),
        Body::Plain(_) => None,
    };
    Sent {
        frame,
        length: out.packet.length,
        first: out.packet.page().byte_at(0),
    }
}

/// Makes the rest of a step, with what it sends.
fn make(rt: &impl Abort, alloc: Global, course: &mut Course, vcpu: VcpuId, act: DevAct) -> Did
    requires sound { IsSound course.old }
    requires left { LeavesAct (state_of course.old) 0 vcpu.0 act (state_of course.old) }
    requires free { ActIsFree (state_of course.old) vcpu.0 act }
    requires send_room { 0 < course.old.devs.send_room }
    requires cells { vec_len course.old.sent_from < vec_capacity course.old.sent_from }
    ensures { IsSound course.new }
{
    if !are_within(course) || course.around.site.homes.len() > 256 {
        panic!(rt; "a page lies outside the machine");
    }
    let out = gave(rt, course.outgoing(alloc, vcpu, act));
    gave(rt, course.carry_out(alloc, vcpu, act));
    match out {
        Some(out) => Did::Sent(on_wire(&out)),
        None => Did::Emulated,
    }
}

/// The cell of a processor.
pub(crate) fn cell_of(course: &Course, processor: ProcId) -> CellId
    requires is_processor { processor.0 < length course.now.places.items }
    requires places { AllStand (surroundings course.now.around) 0 course.now.places.items }
    ensures { result.0 ≡ cell_of_processor (surroundings course.now.around) processor.0 }
{
    let node = course.places[processor.0 as usize].node;
    course.around.site.shape.cells.as_slice()[node.0 as usize]
}

/// Whether a frame lies in a cell that hasn't failed.
pub(crate) fn lies_alive(course: &Course, frame: FrameNo) -> bool
    requires sound { IsSound course.now }
    ensures { OnTrue result (is_dead (state_of course.now) (cell_of_frame (state_of course.now).around frame.0) ≡ false) }
{
    let frames = course.around.site.shape.frames;
    if frames == 0 {
        return false;
    }
    match u8::try_from(frame.0 / frames) {
        Ok(node) => !course.is_dead(course.cell_of_node(NodeId(node))),
        Err(_) => false,
    }
}

/// Begins to give the page from which an act sends, with the spare for it.
fn give(
    rt: &impl Abort,
    alloc: Global,
    course: &mut Course,
    vcpu: VcpuId,
    act: DevAct,
    page: Ppn,
) -> Did
    requires sound { IsSound course.old }
    requires left { LeavesAct (state_of course.old) 0 vcpu.0 act (state_of course.old) }
    requires free { ActIsFree (state_of course.old) vcpu.0 act }
    requires gives { to_give (state_of course.old) vcpu.0 act ≡ Some page.0 }
    requires page { page.0 < length course.old.pmap.pages }
    requires room { 0 < course.old.pmap.room }
    ensures { IsSound course.new }
{
    if !is_foreign(course, SPARE) || !lies_alive(course, SPARE) {
        panic!(rt; "the spare isn't free");
    }
    let spare = Frame {
        number: SPARE,
        generation: 1,
        page: gave(rt, Page::zeroed(alloc)),
    };
    course.begin_to_give(PROCESSOR, vcpu, act, page, spare);
    Did::Begun(page, MoveKind::GiveShared)
}

/// Does what an act needs that no page is in the way of: its page is shared, or else the step is made.
fn share_or_make(
    rt: &impl Abort,
    alloc: Global,
    course: &mut Course,
    vcpu: VcpuId,
    act: DevAct,
) -> Did
    requires sound { IsSound course.old }
    requires left { LeavesAct (state_of course.old) 0 vcpu.0 act (state_of course.old) }
    requires free { ActIsFree (state_of course.old) vcpu.0 act }
    requires send_room { 0 < course.old.devs.send_room }
    requires cells { vec_len course.old.sent_from < vec_capacity course.old.sent_from }
    requires room { 0 < course.old.pmap.room }
    ensures { IsSound course.new }
{
    if let Some((block, page)) = course.to_share(vcpu, act) {
        let frame = copy_of_block(rt, alloc, course, block);
        if !lies_alive(course, frame.number) {
            panic!(rt; "its frame lies on a dead cell");
        }
        course.begin_for_block(PROCESSOR, vcpu, act, block, page, frame);
        return Did::Begun(page, MoveKind::TakeShared);
    }
    match course.to_give(vcpu, act) {
        Some(page) => give(rt, alloc, course, vcpu, act, page),
        None => make(rt, alloc, course, vcpu, act),
    }
}

/// Does what an act needs that was left.
fn do_act(rt: &impl Abort, alloc: Global, course: &mut Course, vcpu: VcpuId, act: DevAct) -> Did
    requires sound { IsSound course.old }
    requires left { LeavesAct (state_of course.old) 0 vcpu.0 act (state_of course.old) }
    requires send_room { 0 < course.old.devs.send_room }
    requires cells { vec_len course.old.sent_from < vec_capacity course.old.sent_from }
    requires room { 0 < course.old.pmap.room }
    ensures { IsSound course.new }
{
    match course.act_hurdle(vcpu, act) {
        Hurdle::Free => share_or_make(rt, alloc, course, vcpu, act),
        Hurdle::Needs(page, kind) => {
            course.begin_for_read(PROCESSOR, vcpu, act, page, kind);
            Did::Begun(page, kind)
        }
        Hurdle::Waits(page) => {
            if course.is_own_read(vcpu, act, page) {
                let mut freed = course.end_read(vcpu, act, page);
                Did::Took(page, freed.pop())
            } else {
                Did::Waits(page)
            }
        }
    }
}

/// The next entry of the virtual processor, or what it needs first.
fn enter(rt: &impl Abort, alloc: Global, course: &mut Course, vcpu: VcpuId) -> Did
    requires sound { IsSound course.old }
    requires may { MayStep (state_of course.old) 0 vcpu.0 }
    requires print_room { 0 < course.old.devs.print_room }
    requires send_room { 0 < course.old.devs.send_room }
    requires cells { vec_len course.old.sent_from < vec_capacity course.old.sent_from }
    requires room { 0 < course.old.pmap.room }
    ensures { IsSound course.new }
{
    match course.step(PROCESSOR, vcpu) {
        HwStep::Direct(_) => Did::Direct,
        HwStep::Trap(cause) => match course.serve(PROCESSOR, vcpu, cause) {
            Entry::Refill => Did::Refilled,
            Entry::Emulate => Did::Emulated,
            Entry::Left(act) => do_act(rt, alloc, course, vcpu, act),
            Entry::Waits(page) => Did::Waits(page),
            Entry::Needs(page, kind) => {
                course.begin_needed(PROCESSOR, vcpu, page, kind);
                Did::Begun(page, kind)
            }
            Entry::Lost(page) => {
                course.begin_lost(PROCESSOR, vcpu, page);
                Did::Begun(page, MoveKind::Collapse)
            }
        },
    }
}

/// A turn of the virtual processor: what is to be done for moves first, and else its next entry.
pub(crate) fn turn(rt: &impl Abort, alloc: Global, course: &mut Course, vcpu: VcpuId) -> Did
    requires sound { IsSound course.old }
    requires processor { 0 < length course.old.places.items }
    requires may { MayStep (state_of course.old) 0 vcpu.0 }
    ensures { IsSound course.new }
{
    gave(rt, course.reserve());
    match course.errand(PROCESSOR) {
        Errand::Acknowledge(page) => {
            course.acknowledge(PROCESSOR, page);
            Did::Acknowledged(page)
        }
        Errand::Finish(page) => {
            let mut freed = course.finish_move(page);
            Did::Finished(page, freed.pop())
        }
        Errand::Nothing => enter(rt, alloc, course, vcpu),
    }
}
