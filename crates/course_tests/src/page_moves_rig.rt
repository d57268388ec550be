//! A table of one page, and its moves, for the tests. A frame's first word is its number.
use crate::telling::{gave, holds, same};
use base_words::{
    CellId, Frame, FrameNo, MoveKind, Page, Ppn, ProcId, ProcSet, Sequence, Shape, SharedFrame,
};
use page_moves::{
    Begin, Freed, Target, acked, begin, drop_shared, finish, first_ready, first_waiting, is_ready,
    is_taking, take_shared,
};
use pmap_table::Pmap;
use shootdown::ProcToken;
use std::alloc::Global;
use std::process::Abort;
use std::sync::Arc;

/// A frame held under generation 1, with its number as its first word.
pub(crate) fn frame(rt: &impl Abort, alloc: Global, number: u32) -> Frame {
    let mut page = gave(rt, Page::zeroed(alloc));
    page.set_word(0, number);
    Frame {
        number: FrameNo(number),
        generation: 1,
        page,
    }
}

/// The same, as a frame that others may hold too.
pub(crate) fn shared(rt: &impl Abort, alloc: Global, number: u32) -> SharedFrame {
    let frame = frame(rt, alloc, number);
    SharedFrame {
        number: frame.number,
        generation: frame.generation,
        page: gave(rt, Arc::new(alloc, frame.page)),
    }
}

/// A table of one page on frame 5.
pub(crate) fn table(rt: &impl Abort, alloc: Global) -> Pmap {
    let mut frames = Sequence::new(alloc);
    gave(rt, frames.push(frame(rt, alloc, 5)));
    assert!(rt; frames.len() < 100);
    gave(rt, Pmap::boot(alloc, frames))
}

/// Four nodes of 16 frames.
pub(crate) fn four_nodes(rt: &impl Abort, alloc: Global) -> Shape {
    let mut cells = Sequence::new(alloc);
    gave(rt, cells.push(CellId(0)));
    gave(rt, cells.push(CellId(0)));
    gave(rt, cells.push(CellId(1)));
    gave(rt, cells.push(CellId(1)));
    Shape {
        nodes: 4,
        frames: 16,
        cells,
    }
}

/// A processor's TLB names the page.
pub(crate) fn maps(rt: &impl Abort, pmap: &mut Pmap, processor: u8) {
    assert!(rt; 0 < pmap.len() && processor < 32);
    pmap.map(Ppn(0), ProcId(processor));
}

/// A move of the page has begun.
fn has_begun(rt: &impl Abort, begun: Begin) {
    match begun {
        Begin::Begun => {}
        Begin::Busy(_) => assert!(rt; false, "the page has another move"),
    }
}

/// A move that the page shared with nobody begins: it migrates, is replicated, or is to be given to others.
pub(crate) fn begins(rt: &impl Abort, pmap: &mut Pmap, kind: MoveKind, target: Frame) {
    gave(rt, pmap.reserve());
    assert!(rt; 0 < pmap.len());
    assert!(rt; !pmap.is_shared(Ppn(0)));
    let target = Some(Target::Own(target));
    let begun = match kind {
        MoveKind::Migrate => {
            assert!(rt; pmap.replicas(Ppn(0)) == 0);
            begin(pmap, Ppn(0), MoveKind::Migrate, target)
        }
        MoveKind::Replicate => {
            assert!(rt; pmap.replicas(Ppn(0)) < 7);
            begin(pmap, Ppn(0), MoveKind::Replicate, target)
        }
        _ => begin(pmap, Ppn(0), MoveKind::GiveShared, target),
    };
    has_begun(rt, begun);
}

/// Of a move that was refused: the processors for which the page's other move waits, and the number of the frame that came back.
fn come_back(begun: &Begin) -> Option<(ProcSet, u32)> {
    let Begin::Busy(busy) = begun else {
        return None;
    };
    match &busy.target {
        Some(Target::Own(frame)) => Some((busy.waiting, frame.number.0)),
        Some(Target::Shared(_)) | None => None,
    }
}

/// The page doesn't migrate, since it has another move, which waits for this processor.
pub(crate) fn is_refused(rt: &impl Abort, pmap: &mut Pmap, target: Frame, processor: u8) {
    gave(rt, pmap.reserve());
    assert!(rt; 0 < pmap.len() && processor < 32);
    assert!(rt; !pmap.is_shared(Ppn(0)));
    assert!(rt; pmap.replicas(Ppn(0)) == 0);
    let number = target.number.0;
    let begun = begin(pmap, Ppn(0), MoveKind::Migrate, Some(Target::Own(target)));
    let waiting = ProcSet::empty().with(ProcId(processor));
    assert!(rt; come_back(&begun) == Some((waiting, number)));
}

/// The replicas of the page are to go.
pub(crate) fn collapses(rt: &impl Abort, pmap: &mut Pmap) {
    gave(rt, pmap.reserve());
    assert!(rt; 0 < pmap.len());
    assert!(rt; pmap.replicas(Ppn(0)) != 0);
    let begun = begin(pmap, Ppn(0), MoveKind::Collapse, None);
    has_begun(rt, begun);
}

/// The page, which others hold too, is to get the last spare.
pub(crate) fn breaks(rt: &impl Abort, pmap: &mut Pmap) {
    gave(rt, pmap.reserve());
    assert!(rt; 0 < pmap.len());
    assert!(rt; 0 < pmap.spares());
    assert!(rt; pmap.is_shared(Ppn(0)));
    let begun = begin(pmap, Ppn(0), MoveKind::Break, None);
    has_begun(rt, begun);
}

/// The page is to be taken from others.
pub(crate) fn is_taken(rt: &impl Abort, pmap: &mut Pmap, target: SharedFrame) {
    gave(rt, pmap.reserve());
    assert!(rt; 0 < pmap.len());
    let begun = begin(
        pmap,
        Ppn(0),
        MoveKind::TakeShared,
        Some(Target::Shared(target)),
    );
    has_begun(rt, begun);
}

/// The page waits for processor 1, which acknowledges.
pub(crate) fn acknowledges(rt: &impl Abort, pmap: &mut Pmap, token: &mut ProcToken) {
    let processor = token.number();
    assert!(rt; processor == ProcId(1));
    match first_waiting(pmap, processor) {
        Some(page) => {
            assert!(rt; page == Ppn(0));
            acked(pmap, page, token);
        }
        None => assert!(rt; false, "no page waits"),
    }
    assert!(rt; first_waiting(pmap, processor).is_none());
}

/// These frames were freed, the last of them first.
fn frees(rt: &impl Abort, freed: Freed, numbers: &[u32]) {
    let mut freed = freed;
    for number in numbers {
        same(rt, freed.pop(), Some(FrameNo(*number)), numbers);
    }
    assert!(rt; freed.pop().is_none());
}

/// The page's move ends, and frees these frames.
pub(crate) fn finishes(rt: &impl Abort, pmap: &mut Pmap, numbers: &[u32]) {
    match first_ready(pmap) {
        Some(page) => {
            assert!(rt; page == Ppn(0));
            frees(rt, finish(pmap, page), numbers);
        }
        None => assert!(rt; false, "no move is ready"),
    }
    assert!(rt; !pmap.is_moving());
    assert!(rt; first_ready(pmap).is_none());
}

/// The operation for which the page is taken ends the move, and frees these frames.
pub(crate) fn takes(rt: &impl Abort, pmap: &mut Pmap, numbers: &[u32]) {
    assert!(rt; first_ready(pmap).is_none());
    assert!(rt; 0 < pmap.len());
    assert!(rt; is_ready(pmap, Ppn(0)));
    assert!(rt; is_taking(pmap, Ppn(0)));
    frees(rt, take_shared(pmap, Ppn(0)), numbers);
}

/// The page isn't taken after all, and these frames are freed.
pub(crate) fn lets_go(rt: &impl Abort, pmap: &mut Pmap, numbers: &[u32]) {
    assert!(rt; 0 < pmap.len());
    assert!(rt; is_taking(pmap, Ppn(0)));
    frees(rt, drop_shared(pmap, Ppn(0)), numbers);
}

/// The page's master, its first word and the word at 8, how many replicas it has, and how many spares there are.
pub(crate) fn is_on(
    rt: &impl Abort,
    pmap: &Pmap,
    master: u32,
    words: [u32; 2],
    replicas: u32,
    spares: u32,
) {
    assert!(rt; 0 < pmap.len());
    assert!(rt; pmap.master(Ppn(0)) == FrameNo(master));
    assert!(rt; pmap.generation(Ppn(0)) == 1);
    assert!(rt; pmap.word(Ppn(0), 0) == words[0]);
    assert!(rt; pmap.word(Ppn(0), 8) == words[1]);
    assert!(rt; pmap.replicas(Ppn(0)) == replicas);
    assert!(rt; pmap.spares() == spares);
}

/// A word is stored at 8.
pub(crate) fn stores(rt: &impl Abort, pmap: &mut Pmap, word: u32) {
    assert!(rt; 0 < pmap.len());
    assert!(rt; !pmap.is_shared(Ppn(0)));
    assert!(rt; pmap.replicas(Ppn(0)) == 0);
    pmap.set_word(Ppn(0), 8, word);
}

/// The page has a move of this kind that waits for processor 3, which then leaves the page.
pub(crate) fn tells(rt: &impl Abort, pmap: &mut Pmap, kind: MoveKind) {
    assert!(rt; 0 < pmap.len());
    match pmap.open_move(Ppn(0)) {
        Some(open) => {
            assert!(rt; open.kind == kind);
            assert!(rt; open.waiting == ProcSet::empty().with(ProcId(3)));
        }
        None => assert!(rt; false, "no move is told"),
    }
    pmap.unmap(Ppn(0), ProcId(3));
    assert!(rt; 0 < pmap.len());
    holds(rt, is_ready(pmap, Ppn(0)), kind);
}

/// These frames are given up in this order, and then nothing is left.
pub(crate) fn gives_up(rt: &impl Abort, pmap: &mut Pmap, numbers: &[u32]) {
    for number in numbers {
        same(rt, pmap.give_up(), Some(FrameNo(*number)), numbers);
    }
    assert!(rt; pmap.give_up().is_none());
    assert!(rt; pmap.is_empty() && !pmap.is_moving());
}
