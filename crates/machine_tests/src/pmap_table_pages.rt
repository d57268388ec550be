//! Values worked out by hand. A frame's first word is its number.
use crate::telling::{gave, must, same};
use base_words::{Frame, FrameList, FrameNo, Page, Ppn, ProcId, ProcSet, Sequence};
use pmap_table::Pmap;
use std::alloc::Global;
use std::process::Abort;

/// A frame held under generation 1, with its number as its first word.
fn frame(rt: &impl Abort, alloc: Global, number: u32) -> Frame {
    let mut page = gave(rt, Page::zeroed(alloc));
    page.set_word(0, number);
    Frame {
        number: FrameNo(number),
        generation: 1,
        page,
    }
}

fn frames(rt: &impl Abort, alloc: Global, numbers: &[u32]) -> FrameList {
    let mut frames = Sequence::new(alloc);
    for number in numbers {
        must(rt, frames.push(frame(rt, alloc, *number)));
    }
    frames
}

/// A table at its start, over frames of these numbers.
fn boot(rt: &impl Abort, alloc: Global, numbers: &[u32]) -> Pmap {
    let frames = frames(rt, alloc, numbers);
    assert!(rt; frames.len() < 100);
    must(rt, Pmap::boot(alloc, frames))
}

/// The word at an offset of a page.
fn read(rt: &impl Abort, pmap: &Pmap, page: Ppn, offset: u32) -> u32 {
    assert!(rt; page.0 < pmap.len() && offset < 4096 && offset % 4 == 0);
    pmap.word(page, offset)
}

/// Another word at an offset of a page, which is the guest's own and has no replicas.
fn write(rt: &impl Abort, pmap: &mut Pmap, page: Ppn, offset: u32, word: u32) {
    assert!(rt; page.0 < pmap.len() && offset < 4096 && offset % 4 == 0);
    assert!(rt; !pmap.is_shared(page));
    assert!(rt; pmap.replicas(page) == 0);
    pmap.set_word(page, offset, word);
}

/// The first bytes of page 0 become those of another.
fn copy(rt: &impl Abort, pmap: &mut Pmap, from: &Page, length: u32) {
    assert!(rt; 0 < pmap.len() && length <= 4096);
    assert!(rt; !pmap.is_shared(Ppn(0)));
    assert!(rt; pmap.replicas(Ppn(0)) == 0);
    pmap.copy_in(Ppn(0), from, length);
}

/// These frames are given up in this order, and then nothing is left.
fn gives_up(rt: &impl Abort, pmap: &mut Pmap, numbers: &[u32]) {
    for number in numbers {
        same(rt, pmap.give_up(), Some(FrameNo(*number)), numbers);
    }
    assert!(rt; pmap.give_up().is_none());
    assert!(rt; pmap.is_empty());
}

/// A page as it is at the start, on a frame of this number.
fn is_new(rt: &impl Abort, pmap: &Pmap, page: Ppn, number: u32) {
    assert!(rt; page.0 < pmap.len());
    assert!(rt; pmap.master(page) == FrameNo(number));
    assert!(rt; pmap.generation(page) == 1);
    assert!(rt; pmap.word(page, 0) == number);
    assert!(rt; !pmap.is_shared(page));
    assert!(rt; pmap.replicas(page) == 0);
    assert!(rt; pmap.open_move(page).is_none());
    assert!(rt; pmap.mapped(page) == ProcSet::empty());
}

/// A word stands at an offset of a page.
fn has_word(rt: &impl Abort, pmap: &Pmap, page: u32, offset: u32, word: u32) {
    let there = read(rt, pmap, Ppn(page), offset);
    same(rt, there, word, (page, offset));
}

/// These processors may name a page.
fn named_by(rt: &impl Abort, pmap: &Pmap, page: u32, set: ProcSet) {
    assert!(rt; page < pmap.len());
    same(rt, pmap.mapped(Ppn(page)), set, ("page", page));
}

#[test]
fn a_table_has_a_page_for_each_frame(rt: HostRuntime) {
    let pmap = boot(&rt, rt.alloc(), &[7, 3, 20]);
    assert!(rt; pmap.len() == 3);
    assert!(rt; !pmap.is_empty());
    assert!(rt; pmap.spares() == 0);
    for (page, number) in [(0, 7), (1, 3), (2, 20)] {
        is_new(&rt, &pmap, Ppn(page), number);
    }
}

#[test]
fn words_and_bytes_are_written(rt: HostRuntime) {
    let alloc = rt.alloc();
    let mut pmap = boot(&rt, alloc, &[7, 3]);
    for (page, offset, word) in [(0, 4, 0x1122_3344), (1, 4092, 0xFFFF_FFFE), (0, 4092, 5)] {
        write(&rt, &mut pmap, Ppn(page), offset, word);
    }
    let rows = [
        (0, 0, 7), // as it was
        (0, 4, 0x1122_3344),
        (0, 4092, 5),
        (1, 0, 3),
        (1, 4, 0),
        (1, 4092, 0xFFFF_FFFE),
    ];
    for (page, offset, word) in rows {
        has_word(&rt, &pmap, page, offset, word);
    }
    assert!(rt; pmap.len() == 2);
    assert!(rt;
        pmap.page(Ppn(0)).byte_at(4) == 0x11,
        "the most significant byte stands first"
    );
}

#[test]
fn the_first_bytes_are_replaced(rt: HostRuntime) {
    let alloc = rt.alloc();
    let mut from = gave(&rt, Page::zeroed(alloc));
    from.set_word(0, 0xAABB_CCDD);
    from.set_word(4, 0x0102_0304);
    from.set_word(4092, 9);
    let rows = [
        (0, [7, 0, 0]), // nothing is copied
        (1, [0xAA00_0007, 0, 0]),
        (6, [0xAABB_CCDD, 0x0102_0000, 0]),
        (4096, [0xAABB_CCDD, 0x0102_0304, 9]),
    ];
    for (length, words) in rows {
        let mut pmap = boot(&rt, alloc, &[7]);
        copy(&rt, &mut pmap, &from, length);
        for (offset, word) in [(0, words[0]), (4, words[1]), (4092, words[2])] {
            has_word(&rt, &pmap, 0, offset, word);
        }
    }
}

#[test]
fn processors_name_pages(rt: HostRuntime) {
    let mut pmap = boot(&rt, rt.alloc(), &[7, 3, 20]);
    for (page, processor) in [(0, 15), (0, 2), (2, 2)] {
        assert!(rt; page < pmap.len());
        pmap.map(Ppn(page), ProcId(processor));
    }
    assert!(rt; pmap.len() == 3);
    pmap.unmap(Ppn(2), ProcId(3));
    let two = ProcSet::empty().with(ProcId(2));
    let rows = [(0, two.with(ProcId(15))), (1, ProcSet::empty()), (2, two)];
    for (page, set) in rows {
        named_by(&rt, &pmap, page, set);
    }
    pmap.unmap(Ppn(0), ProcId(15));
    assert!(rt; !pmap.is_mapped(Ppn(0), ProcId(15)));
    assert!(rt; pmap.is_mapped(Ppn(0), ProcId(2)));
    pmap.leave(ProcId(2));
    for page in 0..3 {
        named_by(&rt, &pmap, page, ProcSet::empty());
    }
}

#[test]
fn room_is_made(rt: HostRuntime) {
    let mut pmap = boot(&rt, rt.alloc(), &[7]);
    must(&rt, pmap.reserve());
    must(&rt, pmap.reserve());
    assert!(rt; pmap.len() == 1);
    assert!(rt; pmap.spares() == 0);
}

#[test]
fn pages_are_given_up_from_the_last(rt: HostRuntime) {
    let mut pmap = boot(&rt, rt.alloc(), &[7, 3, 20]);
    gives_up(&rt, &mut pmap, &[20, 3, 7]);
}
