//! A guest's own calls, one after another: what each answers, and what it leaves in the journal.
use crate::booting::two_guests;
use crate::pair::{Pair, Side};
use crate::telling::{must, same};
use base_words::{CellId, End, Event, Ppn, ProcId, VcpuId};
use event_journal::Journal;
use guest_cases::PRINTS_A;
use guest_core::{Loaded, Packeted, Turn};
use std::alloc::Global;
use std::process::Abort;
use std::sync::Wait;

/// What a turn did, without its accesses and without who is waited for.
#[derive(Clone, Copy, Debug, PartialEq, Eq)]
pub(crate) enum Did {
    /// The processor stepped by itself.
    Direct,
    /// The monitor made the step.
    Emulated,
    Refilled,
    Acked(Ppn),
    Begun(Ppn),
    Finished(Ppn),
    Waits(Ppn),
    VcpuHalted,
    Ended(End),
}

pub(crate) fn kind_of(turn: Turn) -> Did {
    match turn {
        Turn::Stepped(Some(_)) => Did::Direct,
        Turn::Stepped(None) => Did::Emulated,
        Turn::Refilled => Did::Refilled,
        Turn::Acked(page) => Did::Acked(page),
        Turn::Begun(page) => Did::Begun(page),
        Turn::Finished(page) => Did::Finished(page),
        Turn::Waits(page, _) => Did::Waits(page),
        Turn::VcpuHalted => Did::VcpuHalted,
        Turn::GuestEnded(end) => Did::Ended(end),
    }
}

/// Makes a turn for each of these answers.
pub(crate) fn try_turns<R: Abort + Wait>(
    rt: &R,
    alloc: Global,
    pair: &mut Pair,
    side: Side,
    answers: &[Did],
) {
    for answer in answers {
        let turn = must(rt, pair.turn(rt, alloc, side));
        same(rt, kind_of(turn), *answer, side);
    }
}

/// A journal has these entries, each so many times in a row.
pub(crate) fn try_journal<R: Abort>(rt: &R, journal: &Journal, expected: &[(Event, u64)]) {
    let mut runs = journal.as_runs();
    for (event, count) in expected {
        let Some(run) = runs.next() else {
            panic!(rt; "{event:?} is missing");
        };
        assert!(rt; run.event == *event, "in its place");
        same(rt, run.count, *count, event);
    }
    assert!(rt; runs.next().is_none(), "there are more");
}

/// Makes all turns of the first guest, and tries what it uses and loads before and after.
fn run_to_its_halt<R: Abort + Wait>(rt: &R, alloc: Global, pair: &mut Pair) {
    assert!(rt;
        pair.first.guest.uses(CellId(0)),
        "its frames lie on the cell"
    );
    assert!(rt;
        !pair.first.guest.uses(CellId(1)),
        "and nothing lies on another"
    );
    assert!(rt;
        must(rt, pair.load(Side::First)) == Loaded::Done,
        "it is free"
    );
    try_turns(
        rt,
        alloc,
        pair,
        Side::First,
        &[
            Did::Refilled,
            Did::Direct,
            Did::Direct,
            Did::Direct,
            Did::Emulated,
            Did::Emulated,
            Did::Ended(End::Halted),
            Did::Ended(End::Halted),
        ],
    );
    assert!(rt;
        pair.first.guest.end() == Some(End::Halted),
        "its one virtual processor halted"
    );
    assert!(rt;
        !pair.first.guest.uses(CellId(0)),
        "who has ended uses nothing"
    );
    pair.unload(Side::First);
    assert!(rt;
        must(rt, pair.load(Side::First)) == Loaded::Ended(End::Halted),
        "once it has ended"
    );
}

#[test]
fn a_guest_runs_turn_by_turn(rt: HostRuntime) {
    let alloc = rt.alloc();
    let mut pair = two_guests(&rt, alloc, &PRINTS_A, &PRINTS_A);
    run_to_its_halt(&rt, alloc, &mut pair);
    let (record, _) = pair.finish(&rt);
    let (processor, vcpu) = (ProcId(0), VcpuId(0));
    try_journal(
        &rt,
        &record.journal,
        &[
            (Event::Load(processor, vcpu), 1),
            (Event::Refill(processor), 1),
            (Event::Direct(processor, vcpu), 3),
            (Event::Emulate(processor, vcpu), 2),
            (Event::End(End::Halted), 1),
            (Event::Unload(processor), 1),
        ],
    );
    assert!(&rt;
        record.console.as_slice() == b"A".as_slice(),
        "what it printed"
    );
    assert!(&rt; record.end == End::Halted, "how it ended");
}

/// Loads the second guest twice, with some turns each time.
fn run_twice<R: Abort + Wait>(rt: &R, alloc: Global, pair: &mut Pair) {
    assert!(rt;
        must(rt, pair.packet_in(rt, alloc, Side::Second)) == Packeted::NotArmed,
        "no page is armed"
    );
    assert!(rt;
        must(rt, pair.load(Side::Second)) == Loaded::Done,
        "it is free"
    );
    try_turns(
        rt,
        alloc,
        pair,
        Side::Second,
        &[Did::Refilled, Did::Direct, Did::Direct],
    );
    pair.unload(Side::Second);
    assert!(rt;
        must(rt, pair.load(Side::Second)) == Loaded::Done,
        "it goes on"
    );
    try_turns(
        rt,
        alloc,
        pair,
        Side::Second,
        &[Did::Refilled, Did::Direct, Did::Emulated],
    );
    pair.unload(Side::Second);
}

/// The journal of a guest that was loaded twice.
fn try_two_loads<R: Abort>(rt: &R, journal: &Journal) {
    let (processor, vcpu) = (ProcId(1), VcpuId(0));
    try_journal(
        rt,
        journal,
        &[
            (Event::Load(processor, vcpu), 1),
            (Event::Refill(processor), 1),
            (Event::Direct(processor, vcpu), 2),
            (Event::Unload(processor), 1),
            (Event::Load(processor, vcpu), 1),
            (Event::Refill(processor), 1),
            (Event::Direct(processor, vcpu), 1),
            (Event::Emulate(processor, vcpu), 1),
            (Event::Unload(processor), 1),
            (Event::End(End::Budget), 1),
        ],
    );
}

#[test]
fn a_guest_that_goes_on_is_ended_by_the_plan(rt: HostRuntime) {
    let alloc = rt.alloc();
    let mut pair = two_guests(&rt, alloc, &PRINTS_A, &PRINTS_A);
    run_twice(&rt, alloc, &mut pair);
    let (untouched, left) = pair.finish(&rt);
    try_journal(&rt, &untouched.journal, &[(Event::End(End::Budget), 1)]);
    assert!(&rt;
        untouched.console.as_slice() == b"".as_slice(),
        "it made no step"
    );
    try_two_loads(&rt, &left.record.journal);
    assert!(&rt;
        left.record.console.as_slice() == b"A".as_slice(),
        "what it printed"
    );
}
