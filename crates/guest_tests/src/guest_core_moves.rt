//! A page of a guest moves: how each of the guest's calls meets it, and what stands in the journal.
use crate::booting::{ON_TWO_NODES, guests_of};
use crate::guest_core_calls::{Did, try_journal, try_turns};
use crate::pair::{Pair, Side};
use crate::telling::must;
use base_words::{By, End, Event, MoveKind, NodeId, Ppn, ProcId, ProcSet, VcpuId};
use event_journal::Journal;
use guest_core::{Asked, Loaded, Ready};
use std::alloc::Global;
use std::process::Abort;
use std::sync::Wait;

/// LUI 8, C000; ORI 8, 8, 1000; ADDIU 9, 0, 5A; SW 9, 0(8); LW 10, 0(8); LUI 16, CFFF; ORI 16, 16, F000; SW 10, 0(16); SW 0, 4(16): puts
/// Z on page 1, reads it back, prints it, and halts.
const USES_PAGE_1: [u32; 9] = [
    0x3C08_C000,
    0x3508_1000,
    0x2409_005A,
    0xAD09_0000,
    0x8D0A_0000,
    0x3C10_CFFF,
    0x3610_F000,
    0xAE0A_0000,
    0xAE00_0004,
];

/// The page that moves, and where to.
const PAGE: Ppn = Ppn(1);

const NODE: NodeId = NodeId(1);

/// Begins a move of the page once it is mapped.
fn begin_a_move<R: Abort + Wait>(rt: &R, alloc: Global, pair: &mut Pair) {
    assert!(rt;
        pair.finish_ready(Side::First, PAGE) == Ready::NoMove,
        "at the start"
    );
    assert!(rt;
        must(rt, pair.load(Side::First)) == Loaded::Done,
        "it is free"
    );
    let before = [
        Did::Refilled,
        Did::Direct,
        Did::Direct,
        Did::Direct,
        Did::Refilled,
        Did::Direct,
    ];
    try_turns(rt, alloc, pair, Side::First, &before);
    assert!(rt;
        must(rt, pair.ask(alloc, Side::First, PAGE, NODE)) == Asked::Begun,
        "once it is mapped"
    );
}

/// Tries who waits for whom while the page moves.
fn try_waiting<R: Abort>(rt: &R, alloc: Global, pair: &mut Pair) {
    let processor = ProcId(0);
    let waiting = ProcSet::empty().with(processor);
    assert!(rt;
        must(rt, pair.ask(alloc, Side::First, PAGE, NODE)) == Asked::Busy(waiting),
        "while it moves"
    );
    assert!(rt;
        pair.finish_ready(Side::First, PAGE) == Ready::Waits(waiting),
        "before the turn"
    );
    assert!(rt;
        pair.first.guest.must_wait(ProcId(1), PAGE),
        "the other processor"
    );
    assert!(rt;
        !pair.first.guest.must_wait(processor, PAGE),
        "who is waited for"
    );
}

/// Ends the move by the guest's own turns, and goes on to the guest's end.
fn end_the_move<R: Abort + Wait>(rt: &R, alloc: Global, pair: &mut Pair) {
    let ends = [Did::Acked(PAGE), Did::Finished(PAGE)];
    try_turns(rt, alloc, pair, Side::First, &ends);
    assert!(rt;
        must(rt, pair.ask(alloc, Side::First, PAGE, NODE)) == Asked::Skipped,
        "it lies there"
    );
    let after = [
        Did::Refilled,
        Did::Direct,
        Did::Direct,
        Did::Direct,
        Did::Emulated,
        Did::Emulated,
        Did::Ended(End::Halted),
    ];
    try_turns(rt, alloc, pair, Side::First, &after);
    assert!(rt;
        must(rt, pair.ask(alloc, Side::First, PAGE, NODE)) == Asked::Skipped,
        "after the end"
    );
    pair.unload(Side::First);
}

/// The whole way of the page.
fn move_the_page<R: Abort + Wait>(rt: &R, alloc: Global, pair: &mut Pair) {
    begin_a_move(rt, alloc, pair);
    try_waiting(rt, alloc, pair);
    end_the_move(rt, alloc, pair)
}

/// The journal of the guest whose page moved.
fn try_moves<R: Abort>(rt: &R, journal: &Journal) {
    let (processor, vcpu) = (ProcId(0), VcpuId(0));
    let begun = Event::Begin {
        page: PAGE,
        kind: MoveKind::Migrate,
        node: NODE,
        by: By::Plan(processor),
    };
    try_journal(
        rt,
        journal,
        &[
            (Event::Load(processor, vcpu), 1),
            (Event::Refill(processor), 1),
            (Event::Direct(processor, vcpu), 3),
            (Event::Refill(processor), 1),
            (Event::Direct(processor, vcpu), 1),
            (begun, 1),
            (Event::Ack(processor, PAGE), 1),
            (Event::Finish(PAGE), 1),
            (Event::Skip(0), 1),
            (Event::Refill(processor), 1),
            (Event::Direct(processor, vcpu), 3),
            (Event::Emulate(processor, vcpu), 2),
            (Event::End(End::Halted), 1),
            (Event::Skip(1), 1),
            (Event::Unload(processor), 1),
        ],
    );
}

/// A move begins while the processor's TLB names the page, and waits for it; the processor acknowledges it by its next turn, another turn ends
/// it, and the processor comes to the page anew. A second move to the same node is skipped, and so is one after the end.
#[test]
fn a_page_moves_between_two_steps(rt: HostRuntime) {
    let alloc = rt.alloc();
    let mut pair = guests_of(&rt, alloc, ON_TWO_NODES, &USES_PAGE_1, &USES_PAGE_1);
    move_the_page(&rt, alloc, &mut pair);
    let (record, _) = pair.finish(&rt);
    try_moves(&rt, &record.journal);
    assert!(&rt; record.skips.len() == 2, "what was skipped");
    assert!(&rt;
        record.console.as_slice() == b"Z".as_slice(),
        "what it printed"
    );
}
