//! A packet that hands on a frame: the page that is armed is taken shared with it.
ghost use Rattle.std.specs.Prelude.{◌≡◌, ◌≢◌, ◌<◌, ◌*◌, ℕ, None, Some, length};
ghost use Rattle.std.specs.Bool.{OnTrue};
ghost use Rattle.std.specs.Vec.{vec_len, vec_capacity};
ghost use Rattle.private_machine.specs.Backing.{page_at};
ghost use Rattle.guest_course.specs.CourseRules.{IsSound, IsWritable};
ghost use Rattle.guest_course.specs.CourseView.{hand_of, surroundings, state_of};
ghost use Rattle.isolation_law.specs.Phases.{GoesOn};
ghost use Rattle.isolation_law.specs.Surroundings.{cell_of_frame, cell_of_node, home_cell};
ghost use Rattle.wire_queue.specs.Packets.{packet_of};
ghost use Rattle.guest_course.specs.ReceivingCalls.{HandLives};

use crate::guest_course_sharing::{
    PAGE, UP_TO_PAGE_1, guest, page_of, ready, try_end, try_page, try_turns,
};
use crate::guest_course_turns::{Did, lies_alive};
use crate::telling::gave;
use base_words::{CellId, FrameNo, GuestId, MoveKind, Ppn, SharedFrame};
use guest_course::{Around, Course, Hurdle};
use std::alloc::Global;
use std::process::Abort;
use std::sync::Arc;
use wire_queue::{Body, WirePacket};

/// A program at the start of memory: LUI 2, CFFF; ORI 2, 2, F000; LUI 3, C000; ORI 1, 0, 1; SB 1, 1000(3); SW 1, 3C(2); LBU 4, 1000(3);
/// SW 4, 0(2); SW 0, 4(2). It stores to page 1, arms it, prints its first byte, and halts.
const ARMS_A_PAGE: [u8; 36] = [
    0x3C, 0x02, 0xCF, 0xFF, 0x34, 0x42, 0xF0, 0x00, 0x3C, 0x03, 0xC0, 0x00, 0x34, 0x01, 0x00, 0x01,
    0xA0, 0x61, 0x10, 0x00, 0xAC, 0x41, 0x00, 0x3C, 0x90, 0x64, 0x10, 0x00, 0xAC, 0x44, 0x00, 0x00,
    0xAC, 0x40, 0x00, 0x04,
];

/// A packet of guest 1 that hands on this frame, under its second generation; its first byte is a P.
fn whole_packet(rt: &impl Abort, alloc: Global, frame: FrameNo) -> WirePacket
    ensures long { result.length ≡ 4096 }
    ensures whole { length (hand_of result).bytes ≡ 4096 }
    ensures sender { result.cell.0 ≡ 0 }
    ensures handed { (packet_of result).whole ≡ Some (record { frame = frame.0; generation = 2 }) }
{
    let letter = page_of(rt, alloc, b'P');
    let Ok(page) = Arc::new(alloc, letter) else {
        panic!(rt; "no memory is left");
    };
    let frame = SharedFrame {
        number: frame,
        generation: 2,
        page,
    };
    WirePacket {
        from: GuestId(1),
        length: 4096,
        cell: CellId(0),
        body: Body::Whole(frame),
    }
}

/// The cell of a node.
fn cell_at(around: &Around, node: u32) -> CellId
    ensures { result.0 ≡ cell_of_node (surroundings around.now) node }
{
    match around.site.shape.cells.as_slice().get(node as usize) {
        Some(cell) => *cell,
        None => CellId(0),
    }
}

/// Whether a frame is one of a machine of not more than eight nodes.
fn is_within(around: &Around, frame: FrameNo) -> bool
    ensures { OnTrue result (frame.0 < length (surroundings around.now).nodes * around.now.site.shape.frames) }
{
    let nodes = around.site.shape.cells.as_slice().len();
    nodes <= 8 && u64::from(frame.0) < nodes as u64 * u64::from(around.site.shape.frames)
}

/// Whether a frame lies on a guest's home cell, which is cell 0, the packet's.
fn is_at_home(around: &Around, frame: FrameNo) -> bool
    ensures sender { OnTrue result (cell_of_frame (surroundings around.now) frame.0 ≡ 0) }
    ensures home { OnTrue result (cell_of_frame (surroundings around.now) frame.0 ≡ home_cell (surroundings around.now)) }
{
    let frames = around.site.shape.frames;
    if frames == 0 {
        return false;
    }
    let cell = cell_at(around, frame.0 / frames);
    cell == CellId(0) && cell == cell_at(around, u32::from(around.home.0))
}

/// The guest, which has armed a page, takes a packet in hand that hands on this frame.
fn take_packet<R: Abort>(rt: &R, alloc: Global, course: &mut Course, frame: FrameNo)
    requires sound { IsSound course.old }
    requires goes_on { GoesOn (state_of course.old) }
    ensures { IsSound course.new }
{
    assert!(rt; course.armed().is_some() && course.hand.is_none());
    assert!(rt; is_within(&course.around, frame) && is_at_home(&course.around, frame));
    course.take_in_hand(whole_packet(rt, alloc, frame));
}

/// What became of the packet in hand.
#[derive(Clone, Copy, Debug, PartialEq, Eq)]
enum Came {
    /// The armed page is being taken shared with its frame.
    Begun(Ppn),
    /// It came in with its frame, which freed this one as the last, if one.
    Taken(Option<FrameNo>),
    /// It was copied.
    Copied,
    /// The page has a move that isn't over, or needs this one.
    Waits(Ppn),
    Needs(Ppn, MoveKind),
}

/// The packet in hand comes into the page that is armed, where nothing is in its way.
fn come_freely(rt: &impl Abort, alloc: Global, course: &mut Course, page: Ppn) -> Came
    requires sound { IsSound course.old }
    requires goes_on { GoesOn (state_of course.old) }
    requires in_hand { course.old.hand ≢ None }
    requires lives { HandLives (state_of course.old) }
    requires armed { (state_of course.old).devices.armed ≡ Some page.0 }
    requires rests { (page_at course.old.pmap.pages page.0).move ≡ None }
    requires writable { (q : ℕ) → (state_of course.old).devices.armed ≡ Some q → IsWritable (page_at course.old.pmap.pages q) }
    requires room { 0 < course.old.pmap.room }
    requires place { vec_len course.old.received < vec_capacity course.old.received }
    ensures { IsSound course.new }
{
    match gave(rt, course.delivery()) {
        Some((target, delivery)) => {
            if !lies_alive(course, target.number) {
                panic!(rt; "its frame lies on a dead cell");
            }
            course.begin_for_delivery(page, target, delivery);
            Came::Begun(page)
        }
        None => {
            gave(rt, course.receive(alloc));
            Came::Copied
        }
    }
}

/// The page that is armed has a move: the packet in hand ends it where it is for that one.
fn come_taken(rt: &impl Abort, alloc: Global, course: &mut Course, page: Ppn) -> Came
    requires sound { IsSound course.old }
    requires goes_on { GoesOn (state_of course.old) }
    requires in_hand { course.old.hand ≢ None }
    requires lives { HandLives (state_of course.old) }
    requires armed { (state_of course.old).devices.armed ≡ Some page.0 }
    requires page { page.0 < length course.old.pmap.pages }
    requires place { vec_len course.old.received < vec_capacity course.old.received }
    ensures { IsSound course.new }
{
    if !course.is_own_delivery(page) {
        return Came::Waits(page);
    }
    let mut freed = gave(rt, course.end_delivery(alloc));
    Came::Taken(freed.pop())
}

/// Lets the packet in hand come in.
fn come<R: Abort>(rt: &R, alloc: Global, course: &mut Course) -> Came
    requires sound { IsSound course.old }
    requires goes_on { GoesOn (state_of course.old) }
    ensures { IsSound course.new }
{
    gave(rt, course.reserve());
    assert!(rt; course.hand.is_some() && course.lost_packet().is_none());
    let Some(armed) = course.armed() else {
        panic!(rt; "no page is armed");
    };
    match course.packet_hurdle() {
        Hurdle::Free => come_freely(rt, alloc, course, armed),
        Hurdle::Needs(page, kind) => Came::Needs(page, kind),
        Hurdle::Waits(page) => {
            assert!(rt; page.0 < course.pmap.len());
            come_taken(rt, alloc, course, page)
        }
    }
}

/// The armed page is taken shared with the frame that the packet hands on, once the processor has acknowledged that, and its own frame is a
/// spare.
#[test]
fn an_armed_page_is_taken_shared_with_a_packet(rt: HostRuntime) {
    let alloc = rt.alloc();
    let mut course = guest(&rt, alloc, ARMS_A_PAGE.as_slice());
    try_turns(&rt, alloc, &mut course, &UP_TO_PAGE_1);
    try_turns(&rt, alloc, &mut course, &[Did::Emulated]);
    let _ = ready(&rt, &course);
    take_packet(&rt, alloc, &mut course, FrameNo(6));
    let _ = ready(&rt, &course);
    assert!(rt; come(&rt, alloc, &mut course) == Came::Begun(PAGE));
    try_turns(&rt, alloc, &mut course, &[Did::Acknowledged(PAGE)]);
    let _ = ready(&rt, &course);
    assert!(rt; come(&rt, alloc, &mut course) == Came::Taken(None));
    try_page(&rt, &course, PAGE, 6, true, 1);
    assert!(rt; course.received.len() == 1);
    assert!(rt; course.armed().is_none() && course.hand.is_none());
    let printed = [Did::Refilled, Did::Direct, Did::Emulated, Did::Emulated];
    try_turns(&rt, alloc, &mut course, &printed);
    try_end(&rt, &course, b"P");
}
