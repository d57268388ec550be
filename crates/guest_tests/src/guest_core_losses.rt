//! A replica is lost with its cell: how the guest goes on without it, and what stands in the journal.
use crate::booting::{ON_THREE_CELLS, guests_of};
use crate::guest_core_calls::{Did, try_journal, try_turns};
use crate::pair::{Pair, Side};
use crate::telling::must;
use base_words::{By, CellId, End, Event, MoveKind, NodeId, Ppn, ProcId, VcpuId};
use event_journal::Journal;
use guest_core::{Asked, Fate, Loaded, Ready};
use std::alloc::Global;
use std::process::Abort;
use std::sync::Wait;

/// LUI 8, C000; LW 9, 1000(8); LW 9, 1000(8); LW 9, 1000(8): reads page 1 three times.
const READS_PAGE_1: [u32; 4] = [0x3C08_C000, 0x8D09_1000, 0x8D09_1000, 0x8D09_1000];

const PAGE: Ppn = Ppn(1);

/// The page gets a replica on the second node, by which the processor on the third one reads it.
fn read_a_replica<R: Abort + Wait>(rt: &R, alloc: Global, pair: &mut Pair) {
    assert!(rt;
        must(
            rt,
            pair.ask_for_replica(alloc, Side::First, PAGE, NodeId(1))
        ) == Asked::Begun,
        "at the start"
    );
    assert!(rt;
        pair.finish_ready(Side::First, PAGE) == Ready::Finished,
        "no processor maps it"
    );
    assert!(rt;
        must(rt, pair.load(Side::First)) == Loaded::Done,
        "it is free"
    );
    let before = [Did::Refilled, Did::Direct, Did::Refilled, Did::Direct];
    try_turns(rt, alloc, pair, Side::First, &before);
}

/// The replica's cell fails, and the next read collapses the page and goes to its master.
fn lose_the_replica<R: Abort + Wait>(rt: &R, alloc: Global, pair: &mut Pair) {
    assert!(rt;
        !pair.first.guest.uses(CellId(1)),
        "a replica alone is no use"
    );
    assert!(rt;
        must(rt, pair.fail(Side::First, CellId(1))) == Fate::Stays,
        "so the guest goes on"
    );
    let after = [
        Did::Begun(PAGE),
        Did::Acked(PAGE),
        Did::Finished(PAGE),
        Did::Refilled,
        Did::Direct,
        Did::Direct,
    ];
    try_turns(rt, alloc, pair, Side::First, &after);
    pair.unload(Side::First);
}

/// The journal of the guest that lost it.
fn try_losses<R: Abort>(rt: &R, journal: &Journal) {
    let (processor, vcpu) = (ProcId(0), VcpuId(0));
    let replicated = Event::Begin {
        page: PAGE,
        kind: MoveKind::Replicate,
        node: NodeId(1),
        by: By::Plan(processor),
    };
    let collapsed = Event::Begin {
        page: PAGE,
        kind: MoveKind::Collapse,
        node: NodeId(0),
        by: By::Step(processor),
    };
    try_journal(
        rt,
        journal,
        &[
            (replicated, 1),
            (Event::Finish(PAGE), 1),
            (Event::Load(processor, vcpu), 1),
            (Event::Refill(processor), 1),
            (Event::Direct(processor, vcpu), 1),
            (Event::Refill(processor), 1),
            (Event::Direct(processor, vcpu), 1),
            (Event::CellFails(CellId(1)), 1),
            (collapsed, 1),
            (Event::Ack(processor, PAGE), 1),
            (Event::Finish(PAGE), 1),
            (Event::Refill(processor), 1),
            (Event::Direct(processor, vcpu), 2),
            (Event::Unload(processor), 1),
            (Event::End(End::Budget), 1),
        ],
    );
}

/// The processor's half names the replica when its cell fails: the read that meets it collapses the page, and reads the master.
#[test]
fn a_lost_replica_is_dropped_by_the_step_that_meets_it(rt: HostRuntime) {
    let alloc = rt.alloc();
    let mut pair = guests_of(&rt, alloc, ON_THREE_CELLS, &READS_PAGE_1, &READS_PAGE_1);
    read_a_replica(&rt, alloc, &mut pair);
    lose_the_replica(&rt, alloc, &mut pair);
    let (record, _) = pair.finish(&rt);
    try_losses(&rt, &record.journal);
}
