//! A guest whose pages are shared with others, turn by turn: taken shared for disk reads, given before a send, and the guest's own again by
//! stores.
ghost use Rattle.std.specs.Prelude.{◌≡◌, ◌<◌, ◌≤◌, [], ℕ, length, slice_index_or};
ghost use Rattle.std.specs.Arc.{arc_value};
ghost use Rattle.cow_disk.specs.DiskView.{bytes_of};
ghost use Rattle.guest_course.specs.BootCalls.{AreWhole};
ghost use Rattle.guest_course.specs.CourseRules.{IsSound};
ghost use Rattle.guest_course.specs.CourseView.{state_of};
ghost use Rattle.guest_course.specs.StepCalls.{MayStep};

use crate::guest_course_entries::{around, frame};
use crate::guest_course_turns::{Did, PROCESSOR, Sent, cell_of, turn};
use crate::telling::{gave, same};
use base_words::{Blocks, FrameList, FrameNo, MoveKind, Page, Ppn, Sequence, VcpuId};
use cow_disk::Disk;
use guest_course::Course;
use std::alloc::Global;
use std::process::Abort;
use std::sync::Arc;

/// A program at the start of memory: LUI 2, CFFF; ORI 2, 2, F000; LUI 3, C000; ORI 1, 0, 1; LBU 4, 1000(3); SW 1, 24(2); SW 1, 28(2);
/// SW 1, 20(2); ORI 5, 0, 2; SW 5, 24(2); SW 1, 28(2); LBU 4, 1000(3); ADDIU 4, 4, 1; SB 4, 1000(3); LBU 4, 1000(3); SW 4, 0(2);
/// LBU 4, 2000(3); SW 4, 0(2); SW 0, 4(2). It loads from page 1, reads block 0 into it and block 1 into page 2, adds 1 to the first byte
/// of page 1, prints the first bytes of both pages, and halts.
const READS_AND_STORES: [u8; 76] = [
    0x3C, 0x02, 0xCF, 0xFF, 0x34, 0x42, 0xF0, 0x00, 0x3C, 0x03, 0xC0, 0x00, 0x34, 0x01, 0x00, 0x01,
    0x90, 0x64, 0x10, 0x00, 0xAC, 0x41, 0x00, 0x24, 0xAC, 0x41, 0x00, 0x28, 0xAC, 0x41, 0x00, 0x20,
    0x34, 0x05, 0x00, 0x02, 0xAC, 0x45, 0x00, 0x24, 0xAC, 0x41, 0x00, 0x28, 0x90, 0x64, 0x10, 0x00,
    0x24, 0x84, 0x00, 0x01, 0xA0, 0x64, 0x10, 0x00, 0x90, 0x64, 0x10, 0x00, 0xAC, 0x44, 0x00, 0x00,
    0x90, 0x64, 0x20, 0x00, 0xAC, 0x44, 0x00, 0x00, 0xAC, 0x40, 0x00, 0x04,
];

/// A program at the start of memory: LUI 2, CFFF; ORI 2, 2, F000; LUI 3, C000; ORI 1, 0, 1; ORI 4, 0, 50; SB 4, 1000(3); SW 1, 30(2);
/// ORI 5, 0, 1000; SW 5, 34(2); SW 1, 38(2); ORI 4, 0, 51; SB 4, 1000(3); LBU 4, 1000(3); SW 4, 0(2); SW 0, 4(2). It stores a P in page
/// 1, sends the whole page to guest 1, stores a Q there, prints it, and halts.
const SENDS_A_PAGE: [u8; 60] = [
    0x3C, 0x02, 0xCF, 0xFF, 0x34, 0x42, 0xF0, 0x00, 0x3C, 0x03, 0xC0, 0x00, 0x34, 0x01, 0x00, 0x01,
    0x34, 0x04, 0x00, 0x50, 0xA0, 0x64, 0x10, 0x00, 0xAC, 0x41, 0x00, 0x30, 0x34, 0x05, 0x10, 0x00,
    0xAC, 0x45, 0x00, 0x34, 0xAC, 0x41, 0x00, 0x38, 0x34, 0x04, 0x00, 0x51, 0xA0, 0x64, 0x10, 0x00,
    0x90, 0x64, 0x10, 0x00, 0xAC, 0x44, 0x00, 0x00, 0xAC, 0x40, 0x00, 0x04,
];

/// The page that is shared.
pub(crate) const PAGE: Ppn = Ppn(1);

/// The frames 2, 5 and 4, the first one with a program.
fn frames(rt: &impl Abort, alloc: Global, program: &[u8]) -> FrameList
    requires { length program.now ≤ 4096 }
    ensures count { length result ≡ 3 }
    ensures whole { AreWhole result }
{
    let mut first = frame(rt, alloc, 2);
    first.page.fill_from(0, program);
    let mut frames = Sequence::new(alloc);
    gave(rt, frames.push(first));
    gave(rt, frames.push(frame(rt, alloc, 5)));
    gave(rt, frames.push(frame(rt, alloc, 4)));
    frames
}

/// A page with this first byte.
pub(crate) fn page_of(rt: &impl Abort, alloc: Global, letter: u8) -> Box<Page>
    ensures { length result.value ≡ 4096 }
{
    let mut page = gave(rt, Page::zeroed(alloc));
    page.set_byte(0, letter);
    page
}

/// A disk of two blocks, whose first bytes are G and K.
fn blocks(rt: &impl Abort, alloc: Global) -> Arc<Blocks>
    ensures two { length (arc_value result) ≡ 2 }
    ensures whole { (k : ℕ) → k < length (bytes_of (arc_value result)) → length (slice_index_or (bytes_of (arc_value result)) k []) ≡ 4096 }
{
    let mut blocks = Sequence::new(alloc);
    gave(rt, blocks.push(page_of(rt, alloc, b'G')));
    gave(rt, blocks.push(page_of(rt, alloc, b'K')));
    gave(rt, Arc::new(alloc, blocks))
}

/// A guest of three pages with one virtual processor and this program, at its start, and loaded; with the two blocks.
pub(crate) fn guest(rt: &impl Abort, alloc: Global, program: &[u8]) -> Course
    requires { length program.now ≤ 4096 }
    ensures { IsSound result }
{
    let frames = frames(rt, alloc, program);
    let disk = Disk::new(alloc, Some(blocks(rt, alloc)));
    let mut course = gave(
        rt,
        Course::boot(
            alloc,
            around(rt, alloc),
            0xC000_0000,
            1,
            frames,
            disk,
            &Sequence::new(alloc),
        ),
    );
    if course.is_dead(cell_of(&course, PROCESSOR)) {
        panic!(rt; "its cell is dead");
    }
    course.load(PROCESSOR, VcpuId(0));
    course
}

/// The virtual processor that may make an entry.
pub(crate) fn ready<R: Abort>(rt: &R, course: &Course) -> VcpuId
    requires { IsSound course.now }
    ensures processor { 0 < length course.now.places.items }
    ensures may { MayStep (state_of course.now) 0 result.0 }
{
    assert!(rt; 0 < course.places.len());
    let Some(vcpu) = course.ready(PROCESSOR) else {
        panic!(rt; "nobody is ready");
    };
    vcpu
}

/// Makes a turn for each of these answers.
pub(crate) fn try_turns<R: Abort>(rt: &R, alloc: Global, course: &mut Course, answers: &[Did])
    requires { IsSound course.old }
    ensures { IsSound course.new }
{
    for answer in answers {
        let vcpu = ready(rt, course);
        assert!(rt; turn(rt, alloc, course, vcpu) == *answer, "in its place");
    }
}

/// A page's master, whether others may hold it too, and how many spares there are.
pub(crate) fn try_page<R: Abort>(
    rt: &R,
    course: &Course,
    page: Ppn,
    master: u32,
    shared: bool,
    spares: u32,
) {
    assert!(rt; page.0 < course.pmap.len());
    same(
        rt,
        course.pmap.master(page),
        FrameNo(master),
        ("master of", page),
    );
    same(rt, course.pmap.is_shared(page), shared, page);
    same(rt, course.pmap.spares(), spares, ("spares beside", page));
}

/// The guest has halted, and printed this.
pub(crate) fn try_end<R: Abort>(rt: &R, course: &Course, printed: &[u8]) {
    assert!(rt; course.has_halted());
    assert!(rt; *course.devs.console() == *printed);
}

/// The turns up to the guest's first use of page 1, with that one.
pub(crate) const UP_TO_PAGE_1: [Did; 7] = [
    Did::Refilled,
    Did::Direct,
    Did::Direct,
    Did::Direct,
    Did::Direct,
    Did::Refilled,
    Did::Direct,
];

/// The turns from a store to page 1 that has a half by which nobody stores, until it is done: the page's shared frame is freed.
fn stored(freed: u32) -> [Did; 5] {
    [
        Did::Begun(PAGE, MoveKind::Break),
        Did::Acknowledged(PAGE),
        Did::Finished(PAGE, Some(FrameNo(freed))),
        Did::Refilled,
        Did::Direct,
    ]
}

/// Reads the two blocks.
fn read_blocks<R: Abort>(rt: &R, alloc: Global, course: &mut Course)
    requires { IsSound course.old }
    ensures { IsSound course.new }
{
    try_turns(rt, alloc, course, &UP_TO_PAGE_1);
    let first = [
        Did::Emulated,
        Did::Begun(PAGE, MoveKind::TakeShared),
        Did::Acknowledged(PAGE),
        Did::Took(PAGE, None),
    ];
    try_turns(rt, alloc, course, &first);
    try_page(rt, course, PAGE, 6, true, 1);
    let second = [
        Did::Emulated,
        Did::Direct,
        Did::Emulated,
        Did::Begun(Ppn(2), MoveKind::TakeShared),
        Did::Took(Ppn(2), None),
    ];
    try_turns(rt, alloc, course, &second);
    try_page(rt, course, Ppn(2), 7, true, 2);
}

/// Both pages are taken shared for their reads, the first once the processor has acknowledged that, and their own frames are spares. The
/// store to the first page takes the spare that was added last, which was the other page's frame.
#[test]
fn pages_that_were_read_are_shared_until_a_store(rt: HostRuntime) {
    let alloc = rt.alloc();
    let mut course = guest(&rt, alloc, READS_AND_STORES.as_slice());
    read_blocks(&rt, alloc, &mut course);
    let loaded = [Did::Refilled, Did::Direct, Did::Direct];
    try_turns(&rt, alloc, &mut course, &loaded);
    try_turns(&rt, alloc, &mut course, &stored(6));
    try_page(&rt, &course, PAGE, 4, false, 1);
    try_page(&rt, &course, Ppn(2), 7, true, 1);
    let printed = [
        Did::Direct,
        Did::Emulated,
        Did::Refilled,
        Did::Direct,
        Did::Emulated,
        Did::Emulated,
    ];
    try_turns(&rt, alloc, &mut course, &printed);
    try_end(&rt, &course, b"HK");
}

/// The page is given before it is sent whole to a guest that is at home on the same cell, and the packet hands on its frame. The store after it
/// goes to the spare that came with that move.
#[test]
fn a_page_is_given_before_it_is_sent(rt: HostRuntime) {
    let alloc = rt.alloc();
    let mut course = guest(&rt, alloc, SENDS_A_PAGE.as_slice());
    let up_to_the_send = [
        Did::Refilled,
        Did::Direct,
        Did::Direct,
        Did::Direct,
        Did::Direct,
        Did::Direct,
        Did::Refilled,
        Did::Direct,
        Did::Emulated,
        Did::Direct,
        Did::Emulated,
    ];
    try_turns(&rt, alloc, &mut course, &up_to_the_send);
    let given = [
        Did::Begun(PAGE, MoveKind::GiveShared),
        Did::Acknowledged(PAGE),
        Did::Finished(PAGE, None),
    ];
    try_turns(&rt, alloc, &mut course, &given);
    try_page(&rt, &course, PAGE, 5, true, 1);
    let sent = Did::Sent(Sent {
        frame: Some(FrameNo(5)),
        length: 4096,
        first: b'P',
    });
    try_turns(&rt, alloc, &mut course, &[sent, Did::Direct, Did::Refilled]);
    try_turns(&rt, alloc, &mut course, &stored(5));
    try_page(&rt, &course, PAGE, 3, false, 0);
    let printed = [Did::Direct, Did::Emulated, Did::Emulated];
    try_turns(&rt, alloc, &mut course, &printed);
    try_end(&rt, &course, b"Q");
}
