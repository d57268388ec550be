//! A guest that runs, entry by entry.
ghost use Rattle.std.specs.Prelude.{◌≡◌, ◌≢◌, ◌<◌, ◌≤◌, ◌∷◌, [], ℕ, None, length, slice_index_or};
ghost use Rattle.std.specs.Arc.{arc_value};
ghost use Rattle.cow_disk.specs.DiskView.{bytes_of};
ghost use Rattle.guest_course.specs.BootCalls.{AreWhole};
ghost use Rattle.guest_course.specs.CourseRules.{IsSound};
ghost use Rattle.isolation_law.specs.Phases.{GoesOn};
ghost use Rattle.guest_course.specs.CourseView.{hand_of, state_of};
ghost use Rattle.guest_course.specs.StepCalls.{MayStep};
ghost use Rattle.wire_queue.specs.Packets.{packet_of};

use crate::guest_course_turns::cell_of;
use crate::telling::gave;
use base_words::{
    Blocks, CellId, DataAccess, Frame, FrameList, FrameNo, GuestId, HwStep, NodeId, Page, Policy,
    ProcId, Sequence, Shape, VcpuId,
};
use cow_disk::Disk;
use guest_course::{Around, Course, Entry, Hurdle, Site};
use std::alloc::Global;
use std::process::Abort;
use std::sync::Arc;
use wire_queue::{Body, WirePacket};

/// A program at the start of memory: LUI 2, CFFF; ORI 2, 2, F000; LUI 3, C000; ORI 1, 0, 48; SW 1, 1000(3); LW 4, 1000(3);
/// SW 4, 0(2); SW 0, 4(2). It stores a byte in the second page, loads it again, prints it, and halts.
const PROGRAM: [u8; 32] = [
    0x3C, 0x02, 0xCF, 0xFF, 0x34, 0x42, 0xF0, 0x00, 0x3C, 0x03, 0xC0, 0x00, 0x34, 0x01, 0x00, 0x48,
    0xAC, 0x61, 0x10, 0x00, 0x8C, 0x64, 0x10, 0x00, 0xAC, 0x44, 0x00, 0x00, 0xAC, 0x40, 0x00, 0x04,
];

/// A program at the start of memory: LUI 2, CFFF; ORI 2, 2, F000; LUI 3, C000; ORI 1, 0, 1; SW 1, 24(2); SW 1, 28(2);
/// LBU 4, 1000(3); ADDIU 4, 4, 1; SB 4, 1000(3); ORI 5, 0, 2; SW 5, 28(2); SB 0, 1000(3); SW 1, 28(2); LBU 4, 1000(3); SW 4, 0(2);
/// SW 1, 20(2); SW 1, 28(2); LW 4, 2C(2); ADDIU 4, 4, 30; SW 4, 0(2); SW 0, 4(2). It reads block 0 into the second page, adds 1 to its
/// first byte, writes the page back, clears the byte, reads the block again, and prints the byte; reads block 1, prints the
/// status as a digit, and halts.
const DISK_PROGRAM: [u8; 84] = [
    0x3C, 0x02, 0xCF, 0xFF, 0x34, 0x42, 0xF0, 0x00, 0x3C, 0x03, 0xC0, 0x00, 0x34, 0x01, 0x00, 0x01,
    0xAC, 0x41, 0x00, 0x24, 0xAC, 0x41, 0x00, 0x28, 0x90, 0x64, 0x10, 0x00, 0x24, 0x84, 0x00, 0x01,
    0xA0, 0x64, 0x10, 0x00, 0x34, 0x05, 0x00, 0x02, 0xAC, 0x45, 0x00, 0x28, 0xA0, 0x60, 0x10, 0x00,
    0xAC, 0x41, 0x00, 0x28, 0x90, 0x64, 0x10, 0x00, 0xAC, 0x44, 0x00, 0x00, 0xAC, 0x41, 0x00, 0x20,
    0xAC, 0x41, 0x00, 0x28, 0x8C, 0x44, 0x00, 0x2C, 0x24, 0x84, 0x00, 0x30, 0xAC, 0x44, 0x00, 0x00,
    0xAC, 0x40, 0x00, 0x04,
];

/// A program at the start of memory: LUI 2, CFFF; ORI 2, 2, F000; LUI 3, C000; ORI 1, 0, 1; SW 1, 3C(2); LBU 4, 1000(3); SW 4, 0(2);
/// LW 5, 40(2); ADDIU 5, 5, 30; SW 5, 0(2); LW 5, 44(2); ADDIU 5, 5, 30; SW 5, 0(2); SW 0, 4(2). It arms the second page; prints
/// its first byte, and the length and the sender of the last packet as digits; and halts.
const PACKET_PROGRAM: [u8; 56] = [
    0x3C, 0x02, 0xCF, 0xFF, 0x34, 0x42, 0xF0, 0x00, 0x3C, 0x03, 0xC0, 0x00, 0x34, 0x01, 0x00, 0x01,
    0xAC, 0x41, 0x00, 0x3C, 0x90, 0x64, 0x10, 0x00, 0xAC, 0x44, 0x00, 0x00, 0x8C, 0x45, 0x00, 0x40,
    0x24, 0xA5, 0x00, 0x30, 0xAC, 0x45, 0x00, 0x00, 0x8C, 0x45, 0x00, 0x44, 0x24, 0xA5, 0x00, 0x30,
    0xAC, 0x45, 0x00, 0x00, 0xAC, 0x40, 0x00, 0x04,
];

/// An empty frame of node 0.
pub(crate) fn frame(rt: &impl Abort, alloc: Global, number: u32) -> Frame
    ensures { length result.page.value ≡ 4096 }
{
    Frame {
        number: FrameNo(number),
        generation: 1,
        page: gave(rt, Page::zeroed(alloc)),
    }
}

/// Two frames of node 0 with a program.
fn frames(rt: &impl Abort, alloc: Global, program: &[u8]) -> FrameList
    requires { length program.now ≤ 4096 }
    ensures count { length result ≡ 2 }
    ensures whole { AreWhole result }
{
    let mut first = frame(rt, alloc, 2);
    first.page.fill_from(0, program);
    let mut frames = Sequence::new(alloc);
    gave(rt, frames.push(first));
    gave(rt, frames.push(frame(rt, alloc, 5)));
    frames
}

/// One node of eight frames with one processor, on which two guests are at home, and no policy.
pub(crate) fn around(rt: &impl Abort, alloc: Global) -> Around
    ensures nodes { result.site.shape.nodes ≡ 1 }
    ensures frames { result.site.shape.frames ≡ 8 }
    ensures processors { result.site.processors ≡ record { 0 = 0 } ∷ [] }
{
    let mut cells = Sequence::new(alloc);
    gave(rt, cells.push(CellId(0)));
    let mut processors = Sequence::new(alloc);
    gave(rt, processors.push(NodeId(0)));
    let mut homes = Sequence::new(alloc);
    gave(rt, homes.push(CellId(0)));
    gave(rt, homes.push(CellId(0)));
    Around {
        number: GuestId(0),
        disk: 0,
        profile: 1,
        home: NodeId(0),
        site: Site {
            shape: Shape {
                nodes: 1,
                frames: 8,
                cells,
            },
            processors,
            homes,
            policy: Policy {
                migrate: 0,
                replicate: 0,
            },
        },
    }
}

/// Makes an entry on the processor: what it is, and the frame of its data access, if it has one.
fn enter(course: &mut Course, vcpu: VcpuId) -> (u8, Option<FrameNo>)
    requires sound { IsSound course.old }
    requires may { MayStep (state_of course.old) 0 vcpu.0 }
    requires room { 0 < course.old.devs.print_room }
    ensures { IsSound course.new }
{
    match course.step(ProcId(0), vcpu) {
        HwStep::Direct(access) => match access.data {
            DataAccess::NoData => (0, None),
            DataAccess::Load { frame, .. } => (1, Some(frame)),
            DataAccess::Store { frame, .. } => (2, Some(frame)),
        },
        HwStep::Trap(cause) => match course.serve(ProcId(0), vcpu, cause) {
            Entry::Refill => (3, None),
            Entry::Emulate => (4, None),
            Entry::Left(_) => (5, None),
            Entry::Waits(_) => (6, None),
            Entry::Needs(..) => (7, None),
            Entry::Lost(_) => (8, None),
        },
    }
}

#[test]
fn a_guest_prints_what_it_stored(rt: HostRuntime) {
    let alloc = rt.alloc();
    let frames = frames(&rt, alloc, PROGRAM.as_slice());
    let disk = Disk::new(alloc, None);
    let mut course = gave(
        &rt,
        Course::boot(
            alloc,
            around(&rt, alloc),
            0xC000_0000,
            1,
            frames,
            disk,
            &Sequence::new(alloc),
        ),
    );
    assert!(rt; !course.is_dead(cell_of(&course, ProcId(0))));
    course.load(ProcId(0), VcpuId(0));
    let expected = [
        (3, None),
        (0, None),
        (0, None),
        (0, None),
        (0, None),
        (3, None),
        (2, Some(FrameNo(5))),
        (1, Some(FrameNo(5))),
        (4, None),
        (4, None),
    ];
    for entry in expected {
        gave(&rt, course.reserve());
        assert!(rt; 0 < course.places.len());
        let Some(vcpu) = course.ready(ProcId(0)) else {
            panic!(rt; "nobody is ready for {entry:?}");
        };
        assert!(rt; vcpu == VcpuId(0));
        assert!(rt; enter(&mut course, vcpu) == entry);
    }
    assert!(rt; course.has_halted());
    assert!(rt; 0 < course.places.len());
    assert!(rt; course.ready(ProcId(0)).is_none());
    assert!(rt; *course.devs.console() == *b"H".as_slice());
}

/// A disk of one block, whose first byte is a G.
fn block(rt: &impl Abort, alloc: Global) -> Arc<Blocks>
    ensures one { length (arc_value result) ≡ 1 }
    ensures whole { (k : ℕ) → k < length (bytes_of (arc_value result)) → length (slice_index_or (bytes_of (arc_value result)) k []) ≡ 4096 }
{
    let mut page = gave(rt, Page::zeroed(alloc));
    page.set_byte(0, b'G');
    let mut blocks = Sequence::new(alloc);
    gave(rt, blocks.push(page));
    gave(rt, Arc::new(alloc, blocks))
}

/// Makes an entry on the processor, and carries out what it leaves where no page is in its way.
fn advance(rt: &impl Abort, alloc: Global, course: &mut Course, vcpu: VcpuId)
    requires sound { IsSound course.old }
    requires may { MayStep (state_of course.old) 0 vcpu.0 }
    ensures { IsSound course.new }
{
    gave(rt, course.reserve());
    if let HwStep::Trap(cause) = course.step(ProcId(0), vcpu) {
        if let Entry::Left(act) = course.serve(ProcId(0), vcpu, cause) {
            match course.act_hurdle(vcpu, act) {
                Hurdle::Free => gave(rt, course.carry_out(alloc, vcpu, act)),
                Hurdle::Waits(_) | Hurdle::Needs(..) => {}
            }
        }
    }
}

#[test]
fn a_guest_prints_what_its_disk_has(rt: HostRuntime) {
    let alloc = rt.alloc();
    let frames = frames(&rt, alloc, DISK_PROGRAM.as_slice());
    let disk = Disk::new(alloc, Some(block(&rt, alloc)));
    let mut course = gave(
        &rt,
        Course::boot(
            alloc,
            around(&rt, alloc),
            0xC000_0000,
            1,
            frames,
            disk,
            &Sequence::new(alloc),
        ),
    );
    assert!(rt; !course.is_dead(cell_of(&course, ProcId(0))));
    course.load(ProcId(0), VcpuId(0));
    for _entry in 0..60 {
        assert!(rt; 0 < course.places.len());
        let Some(vcpu) = course.ready(ProcId(0)) else {
            break;
        };
        advance(&rt, alloc, &mut course, vcpu);
    }
    assert!(rt; course.has_halted());
    assert!(rt; *course.devs.console() == *b"H1".as_slice());
}

/// A packet of guest 1 of three bytes, of which the first is a P.
fn packet(rt: &impl Abort, alloc: Global) -> WirePacket
    ensures long { result.length ≡ 3 }
    ensures whole { length (hand_of result).bytes ≡ 3 }
    ensures copied { (packet_of result).whole ≡ None }
{
    let mut page = gave(rt, Page::zeroed(alloc));
    page.set_byte(0, b'P');
    WirePacket {
        from: GuestId(1),
        length: 3,
        cell: CellId(0),
        body: Body::Plain(page),
    }
}

/// A packet comes to hand, and into the armed page where that may change.
fn come(rt: &impl Abort, alloc: Global, course: &mut Course)
    requires sound { IsSound course.old }
    requires goes_on { GoesOn (state_of course.old) }
    requires free { course.old.hand ≡ None }
    requires armed { (state_of course.old).devices.armed ≢ None }
    ensures { IsSound course.new }
{
    gave(rt, course.reserve());
    course.take_in_hand(packet(rt, alloc));
    if course.lost_packet().is_some() {
        panic!(rt; "the packet is lost");
    }
    match course.packet_hurdle() {
        Hurdle::Free => gave(rt, course.receive(alloc)),
        Hurdle::Waits(_) | Hurdle::Needs(..) => {}
    }
}

/// A packet comes where a page is armed; else the guest makes an entry.
fn come_or_advance(rt: &impl Abort, alloc: Global, course: &mut Course, vcpu: VcpuId)
    requires sound { IsSound course.old }
    requires may { MayStep (state_of course.old) 0 vcpu.0 }
    ensures { IsSound course.new }
{
    if course.armed().is_some() && course.hand.is_none() {
        come(rt, alloc, course);
    } else {
        advance(rt, alloc, course, vcpu);
    }
}

#[test]
fn a_packet_comes_into_the_armed_page(rt: HostRuntime) {
    let alloc = rt.alloc();
    let frames = frames(&rt, alloc, PACKET_PROGRAM.as_slice());
    let disk = Disk::new(alloc, None);
    let mut course = gave(
        &rt,
        Course::boot(
            alloc,
            around(&rt, alloc),
            0xC000_0000,
            1,
            frames,
            disk,
            &Sequence::new(alloc),
        ),
    );
    assert!(rt; !course.is_dead(cell_of(&course, ProcId(0))));
    course.load(ProcId(0), VcpuId(0));
    for _entry in 0..40 {
        assert!(rt; 0 < course.places.len());
        let Some(vcpu) = course.ready(ProcId(0)) else {
            break;
        };
        come_or_advance(&rt, alloc, &mut course, vcpu);
    }
    assert!(rt; course.has_halted());
    assert!(rt; course.received.len() == 1);
    assert!(rt; course.armed().is_none());
    assert!(rt; *course.devs.console() == *b"P31".as_slice());
}
