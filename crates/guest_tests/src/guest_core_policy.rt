//! A page gets a replica by the policy and loses it by a store: how a guest's calls meet it, and what stands in the journal.
use crate::booting::{FAR_FROM_HOME, guests_of};
use crate::guest_core_calls::{Did, try_journal, try_turns};
use crate::pair::{Pair, Side};
use crate::telling::must;
use base_words::{By, End, Event, MoveKind, NodeId, Ppn, ProcId, VcpuId};
use event_journal::Journal;
use guest_core::{Asked, Loaded};
use std::alloc::Global;
use std::process::Abort;
use std::sync::Wait;

/// LUI 8, C000; three times LW 9, 1000(8); SW 8, 1000(8); LW 9, 1000(8): reads page 1, writes it and reads it again.
const READS_AND_WRITES: [u32; 6] = [
    0x3C08_C000,
    0x8D09_1000,
    0x8D09_1000,
    0x8D09_1000,
    0xAD08_1000,
    0x8D09_1000,
];

/// The page that gets a replica.
const PAGE: Ppn = Ppn(1);

/// Makes turns until a replica is due, and asks for it.
fn read_until_due<R: Abort + Wait>(rt: &R, alloc: Global, pair: &mut Pair) {
    assert!(rt;
        must(rt, pair.load(Side::First)) == Loaded::Done,
        "it is free"
    );
    assert!(rt;
        must(rt, pair.ask_due(alloc, Side::First)).is_none(),
        "at the start"
    );
    let misses = [
        Did::Refilled,
        Did::Direct,
        Did::Refilled,
        Did::Direct,
        Did::Direct,
    ];
    try_turns(rt, alloc, pair, Side::First, &misses);
    assert!(rt;
        pair.turn(rt, alloc, Side::First).is_err(),
        "before it was asked for"
    );
    assert!(rt;
        must(rt, pair.ask_due(alloc, Side::First)) == Some(Asked::Begun),
        "after two misses"
    );
    assert!(rt;
        must(rt, pair.ask_due(alloc, Side::First)) == None,
        "once it was asked for"
    );
}

/// Makes the turns from there on.
fn read_and_write<R: Abort + Wait>(rt: &R, alloc: Global, pair: &mut Pair) {
    let reads_and_writes = [
        Did::Acked(PAGE),
        Did::Finished(PAGE),
        Did::Refilled,
        Did::Direct,
        Did::Begun(PAGE),
        Did::Acked(PAGE),
        Did::Finished(PAGE),
        Did::Refilled,
        Did::Direct,
        Did::Direct,
    ];
    try_turns(rt, alloc, pair, Side::First, &reads_and_writes);
    assert!(rt;
        must(rt, pair.ask_due(alloc, Side::First)) == None,
        "after a store and two misses"
    );
    pair.unload(Side::First);
}

/// Makes all turns.
fn make_all_turns<R: Abort + Wait>(rt: &R, alloc: Global, pair: &mut Pair) {
    read_until_due(rt, alloc, pair);
    read_and_write(rt, alloc, pair)
}

/// The journal of the guest whose page got a replica and lost it.
fn try_replica<R: Abort>(rt: &R, journal: &Journal) {
    let (processor, vcpu) = (ProcId(0), VcpuId(0));
    let replicated = Event::Begin {
        page: PAGE,
        kind: MoveKind::Replicate,
        node: NodeId(1),
        by: By::Due(processor),
    };
    let collapsed = Event::Begin {
        page: PAGE,
        kind: MoveKind::Collapse,
        node: NodeId(0),
        by: By::Step(processor),
    };
    try_journal(
        rt,
        journal,
        &[
            (Event::Load(processor, vcpu), 1),
            (Event::Refill(processor), 1),
            (Event::Direct(processor, vcpu), 1),
            (Event::Refill(processor), 1),
            (Event::Direct(processor, vcpu), 2),
            (replicated, 1),
            (Event::Ack(processor, PAGE), 1),
            (Event::Finish(PAGE), 1),
            (Event::Refill(processor), 1),
            (Event::Direct(processor, vcpu), 1),
            (collapsed, 1),
            (Event::Ack(processor, PAGE), 1),
            (Event::Finish(PAGE), 1),
            (Event::Refill(processor), 1),
            (Event::Direct(processor, vcpu), 2),
            (Event::Unload(processor), 1),
            (Event::End(End::Budget), 1),
        ],
    );
}

/// After the second miss of page 1 the processor can do nothing before it has asked for the replica; it reads the third time by that one. Its
/// store lets the replica go first, and neither the store nor the read after it makes another one due, since the page is written.
#[test]
fn a_replica_comes_by_misses_and_goes_by_a_store(rt: HostRuntime) {
    let alloc = rt.alloc();
    let mut pair = guests_of(
        &rt,
        alloc,
        FAR_FROM_HOME,
        &READS_AND_WRITES,
        &READS_AND_WRITES,
    );
    make_all_turns(&rt, alloc, &mut pair);
    let (record, _) = pair.finish(&rt);
    try_replica(&rt, &record.journal);
}
