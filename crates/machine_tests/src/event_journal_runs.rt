//! Lists made by hand, with their lengths and runs counted by hand.
use crate::telling::{gave, must};
use base_words::{By, End, MoveKind, NodeId, Ppn};
use event_journal::{Event, Journal, ProcId, Run, VcpuId};
use std::alloc::Global;
use std::process::Abort;

const DIRECT: Event = Event::Direct(ProcId(0), VcpuId(0));

const EMULATE: Event = Event::Emulate(ProcId(0), VcpuId(0));

const LOAD: Event = Event::Load(ProcId(0), VcpuId(0));

const REFILL: Event = Event::Refill(ProcId(0));

const UNLOAD: Event = Event::Unload(ProcId(0));

const BUDGET: Event = Event::End(End::Budget);

/// Direct entries of other virtual processors and processors, to the last of each.
const SECOND_VCPU: Event = Event::Direct(ProcId(0), VcpuId(1));

const LAST_VCPU: Event = Event::Direct(ProcId(0), VcpuId(255));

const NEXT_PROCESSOR: Event = Event::Direct(ProcId(1), VcpuId(0));

const LAST_PROCESSOR: Event = Event::Direct(ProcId(255), VcpuId(255));

/// A move of page 1 begins, asked for by a packet and by a step of either processor.
const BY_PACKET: Event = Event::Begin {
    page: Ppn(1),
    kind: MoveKind::Break,
    node: NodeId(2),
    by: By::Packet,
};

const BY_STEP: Event = Event::Begin {
    page: Ppn(1),
    kind: MoveKind::Break,
    node: NodeId(2),
    by: By::Step(ProcId(0)),
};

const BY_OTHER_STEP: Event = Event::Begin {
    page: Ppn(1),
    kind: MoveKind::Break,
    node: NodeId(2),
    by: By::Step(ProcId(1)),
};

/// A journal with these entries, each so often in a row. A Direct entry comes by its own call where that is asked for.
fn journal_of(rt: &impl Abort, alloc: Global, rows: &[(Event, u64)], by_own_call: bool) -> Journal {
    let mut journal = Journal::new(alloc);
    for (event, count) in rows {
        for _ in 0..*count {
            gave(rt, journal.reserve(1));
            match event {
                Event::Direct(processor, vcpu) if by_own_call => {
                    journal.push_direct(*processor, *vcpu);
                }
                _ => journal.push(*event),
            }
        }
    }
    journal
}

/// Entries, how many there are, and their runs.
type Row = (&'static [(Event, u64)], u64, &'static [(Event, u64)]);

static ROWS: [Row; 8] = [
    (&[], 0, &[]),
    (&[(LOAD, 1)], 1, &[(LOAD, 1)]),
    // a raw guest that jumps to itself for 2,000,000 steps
    (
        &[
            (LOAD, 1),
            (REFILL, 1),
            (DIRECT, 2_000_000),
            (UNLOAD, 1),
            (BUDGET, 1),
        ],
        2_000_004,
        &[
            (LOAD, 1),
            (REFILL, 1),
            (DIRECT, 2_000_000),
            (UNLOAD, 1),
            (BUDGET, 1),
        ],
    ),
    // the same entry again is one run, and it is another run behind another entry
    (
        &[(DIRECT, 2), (DIRECT, 1), (SECOND_VCPU, 1), (DIRECT, 1)],
        5,
        &[(DIRECT, 3), (SECOND_VCPU, 1), (DIRECT, 1)],
    ),
    // the last virtual processor of one processor, the first of the next, and the last of the last
    (
        &[(LAST_VCPU, 1), (NEXT_PROCESSOR, 1), (LAST_PROCESSOR, 2)],
        4,
        &[(LAST_VCPU, 1), (NEXT_PROCESSOR, 1), (LAST_PROCESSOR, 2)],
    ),
    // 255 * 256 + 255 is one below the mark of other entries
    (
        &[(REFILL, 2), (LAST_PROCESSOR, 1), (REFILL, 1), (DIRECT, 1)],
        5,
        &[(REFILL, 2), (LAST_PROCESSOR, 1), (REFILL, 1), (DIRECT, 1)],
    ),
    (
        &[(EMULATE, 2), (DIRECT, 2), (EMULATE, 1), (EMULATE, 1)],
        6,
        &[(EMULATE, 2), (DIRECT, 2), (EMULATE, 2)],
    ),
    // entries that differ in who asked alone
    (
        &[(BY_PACKET, 2), (BY_STEP, 1), (BY_OTHER_STEP, 1)],
        4,
        &[(BY_PACKET, 2), (BY_STEP, 1), (BY_OTHER_STEP, 1)],
    ),
];

#[test]
fn entries_are_kept_as_runs(rt: HostRuntime) {
    for by_own_call in [false, true] {
        for (entries, len, runs) in &ROWS {
            let journal = journal_of(&rt, rt.alloc(), *entries, by_own_call);
            assert!(rt; journal.len() == *len);
            assert!(rt; journal.runs() == runs.len() as u64);
            let mut kept = journal.as_runs();
            for (event, count) in *runs {
                let run = Run {
                    event: *event,
                    count: *count,
                };
                assert!(rt; kept.next() == Some(run));
            }
            assert!(rt; kept.next().is_none());
        }
    }
}

#[test]
fn room_is_made_and_used(rt: HostRuntime) {
    let mut journal = Journal::new(rt.alloc());
    assert!(rt; journal.room() == 0);
    assert!(rt; journal.is_empty());
    assert!(rt; journal.has_room(0));
    assert!(rt; !journal.has_room(1));
    must(&rt, journal.reserve(3));
    assert!(rt; journal.has_room(3));
    journal.push(LOAD);
    journal.push_direct(ProcId(0), VcpuId(0));
    journal.push(UNLOAD);
    assert!(rt; journal.len() == 3);
    assert!(rt; !journal.is_empty());
    let room = journal.room();
    assert!(rt; journal.reserve(usize::MAX).is_err());
    assert!(rt; journal.room() == room);
    assert!(rt; journal.runs() == 3);
}

#[test]
fn entries_are_counted(rt: HostRuntime) {
    let entries = [
        (LOAD, 1),
        (REFILL, 2),
        (DIRECT, 5),
        (EMULATE, 2),
        (SECOND_VCPU, 3),
        (Event::Emulate(ProcId(1), VcpuId(0)), 1),
        (REFILL, 1),
        (DIRECT, 4),
    ];
    let journal = journal_of(&rt, rt.alloc(), &entries, true);
    for (processor, vcpu, steps) in [(0, 0, 11), (0, 1, 3), (1, 0, 1), (1, 1, 0)] {
        assert!(rt; journal.steps_of(ProcId(processor), VcpuId(vcpu)) == steps);
    }
    assert!(rt; journal.count_of(|event| event == REFILL) == 3);
    assert!(rt; journal.count_of(|_| true) == 19);
}
