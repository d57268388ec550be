//! Values worked out by hand: a virtual page is its address without the low 12 bits, a pair of them without the low 13.
use crate::telling::same;
use base_words::{FrameNo, Ppn};
use hw_tlb::{HwAnswer, HwTlb};
use std::process::Abort;

/// An address in pair 200, on its even page.
const EVEN: u32 = 0x0040_0000;
/// On the odd page of pair 200.
const ODD: u32 = 0x0040_1000;

/// A half that names the page and the frame ten times as high.
fn fill(tlb: &mut HwTlb, address: u32, asid: u8, global: bool, page: u8) {
    let frame = FrameNo(10 * u32::from(page));
    tlb.fill(address, asid, global, Ppn(u32::from(page)), frame, true);
}

/// What a load finds of such a half.
fn hit(page: u8) -> HwAnswer {
    HwAnswer::Hit(FrameNo(10 * u32::from(page)), Ppn(u32::from(page)))
}

/// An access in an address space is answered so.
fn finds(rt: &impl Abort, tlb: &HwTlb, address: u32, asid: u8, store: bool, answer: HwAnswer) {
    same(
        rt,
        tlb.lookup(address, asid, store),
        answer,
        (address, asid),
    );
}

#[test]
fn answers(rt: HostRuntime) {
    let mut tlb = HwTlb::new();
    fill(&mut tlb, EVEN, 7, false, 5);
    tlb.fill(ODD, 7, false, Ppn(6), FrameNo(60), false);
    fill(&mut tlb, 0x1000_2000, 3, true, 9);
    fill(&mut tlb, 0xFFFF_F000, 255, false, 11);
    let rows = [
        (0x0040_0000, 7, false, hit(5)), // the even page's first byte
        (0x0040_0FFF, 7, false, hit(5)), // its last byte
        (0x0040_0000, 7, true, hit(5)), // a store, and the half is writable
        (0x0040_1000, 7, false, hit(6)), // the odd page
        (
            0x0040_1FFF,
            7,
            true,
            HwAnswer::ReadOnly(FrameNo(60), Ppn(6)),
        ), // a store, and the half isn't writable
        (0x0040_2000, 7, false, HwAnswer::Miss), // the page after the pair
        (0x003F_FFFF, 7, false, HwAnswer::Miss), // the page before it
        (0x0040_0000, 8, false, HwAnswer::Miss), // another address space
        (0x0040_1000, 8, true, HwAnswer::Miss), // the same, and a store
        (0x1000_2000, 3, false, hit(9)), // a global half, in the space it was filled for
        (0x1000_2ABC, 255, true, hit(9)), // and in another
        (0x1000_3000, 3, false, HwAnswer::Miss), // its pair's other page
        (0xFFFF_FFFF, 255, false, hit(11)), // the last page of the last address space
    ];
    for (address, asid, store, answer) in rows {
        finds(&rt, &tlb, address, asid, store, answer);
    }
}

#[test]
fn one_half_takes_the_place_of_another(rt: HostRuntime) {
    let rows = [
        (7, false, 7, false, 7, hit(2)), // the same address space
        (7, false, 8, false, 7, hit(1)), // two address spaces: the first stays
        (7, false, 8, false, 8, hit(2)), // and the second is there
        (7, false, 8, true, 7, hit(2)), // a global half over one of a single space
        (7, true, 7, false, 7, hit(2)), // one of a single space over a global one
        (7, true, 8, false, 7, HwAnswer::Miss), // the global one is gone elsewhere too
        (7, true, 8, true, 9, hit(2)), // a global one over a global one
    ];
    for (first, all, second, both, asid, answer) in rows {
        let mut tlb = HwTlb::new();
        fill(&mut tlb, EVEN, first, all, 1);
        fill(&mut tlb, EVEN, second, both, 2);
        finds(&rt, &tlb, EVEN, asid, false, answer);
    }
}

#[test]
fn a_global_half_takes_the_place_of_many(rt: HostRuntime) {
    let mut tlb = HwTlb::new();
    for asid in 0..5u8 {
        fill(&mut tlb, EVEN, asid, false, asid);
    }
    fill(&mut tlb, EVEN, 9, true, 6);
    for asid in 0..5u8 {
        finds(&rt, &tlb, EVEN, asid, false, hit(6));
    }
    tlb.drop_page(Ppn(6));
    for asid in 0..5u8 {
        finds(&rt, &tlb, EVEN, asid, false, HwAnswer::Miss);
    }
}

/// A TLB whose 48 entries have been filled in turn, each with the even page of a pair: page n of pair n.
fn full() -> HwTlb {
    let mut tlb = HwTlb::new();
    for n in 0..48u8 {
        fill(&mut tlb, 0x2000 * u32::from(n), 7, false, n);
    }
    tlb
}

#[test]
fn entries_in_turn(rt: HostRuntime) {
    let mut tlb = full();
    for n in 0..48u8 {
        finds(&rt, &tlb, 0x2000 * u32::from(n), 7, false, hit(n));
    }
    fill(&mut tlb, 0x1000, 7, false, 60); // pair 0's odd page joins entry 0, and takes no turn
    fill(&mut tlb, 0x2000, 7, false, 61); // pair 1's even page again, in entry 1: no turn either
    fill(&mut tlb, ODD, 7, false, 62); // entry 0 has its turn: both halves go
    fill(&mut tlb, 0x0800_0000, 7, false, 63); // then entry 1
    fill(&mut tlb, 0x3000, 8, false, 64); // pair 1's odd page in another space: entry 2
    fill(&mut tlb, 0x7000, 7, true, 65); // pair 3's odd page, but global: entry 3
    let rows = [
        (0x0000_0000, 7, HwAnswer::Miss),
        (0x0000_1000, 7, HwAnswer::Miss),
        (0x0000_2000, 7, HwAnswer::Miss),
        (0x0000_4000, 7, HwAnswer::Miss),
        (0x0000_6000, 7, HwAnswer::Miss),
        (0x0000_8000, 7, hit(4)),
        (0x0005_E000, 7, hit(47)), // 2F pairs on
        (ODD, 7, hit(62)),
        (0x0800_0000, 7, hit(63)),
        (0x0000_3000, 8, hit(64)),
        (0x0000_7000, 1, hit(65)),
    ];
    for (address, asid, answer) in rows {
        finds(&rt, &tlb, address, asid, false, answer);
    }
}

#[test]
fn the_last_entry_is_followed_by_the_first(rt: HostRuntime) {
    let mut tlb = full();
    for n in 48..97u8 {
        fill(&mut tlb, 0x2000 * u32::from(n), 7, false, n);
    }
    // 49 more: entries 0 to 47, and 0 again
    let rows = [
        (47, HwAnswer::Miss),
        (48, HwAnswer::Miss),
        (49, hit(49)),
        (95, hit(95)),
        (96, hit(96)),
    ];
    for (pair, answer) in rows {
        finds(&rt, &tlb, 0x2000 * pair, 7, false, answer);
    }
}

/// A TLB with four halves, three of which name page 5.
fn with_four() -> HwTlb {
    let mut tlb = HwTlb::new();
    fill(&mut tlb, EVEN, 7, false, 5);
    fill(&mut tlb, ODD, 7, false, 6);
    fill(&mut tlb, ODD, 8, false, 5);
    fill(&mut tlb, 0x0040_2000, 7, true, 5);
    tlb
}

#[test]
fn drops(rt: HostRuntime) {
    let whole = with_four();
    let mut no_page = with_four();
    no_page.drop_page(Ppn(5));
    let mut no_pair = with_four();
    no_pair.drop_pair(0x200);
    let mut nothing = with_four();
    nothing.flush();
    // at the start, without page 5, without pair 200
    let rows = [
        (EVEN, 7, hit(5), HwAnswer::Miss, HwAnswer::Miss),
        (ODD, 7, hit(6), hit(6), HwAnswer::Miss),
        (ODD, 8, hit(5), HwAnswer::Miss, HwAnswer::Miss),
        (0x0040_2000, 9, hit(5), HwAnswer::Miss, hit(5)),
    ];
    for (address, asid, start, page, pair) in rows {
        finds(&rt, &whole, address, asid, false, start);
        finds(&rt, &no_page, address, asid, false, page);
        finds(&rt, &no_pair, address, asid, false, pair);
        finds(&rt, &nothing, address, asid, false, HwAnswer::Miss);
    }
}

#[test]
fn a_half_is_found_where_its_hint_leads_elsewhere(rt: HostRuntime) {
    let mut tlb = HwTlb::new();
    // virtual pages 0, 1FF and 2FE share a hint: 0, 1FF + 1 and 2FE + 2 have the same low 8 bits
    let rows = [(0x0000_0000, 1), (0x001F_F000, 2), (0x002F_E000, 3)];
    for (address, page) in rows {
        fill(&mut tlb, address, 7, false, page);
    }
    for (address, page) in rows {
        finds(&rt, &tlb, address, 7, false, hit(page));
    }
    tlb.drop_page(Ppn(3));
    finds(&rt, &tlb, 0x002F_E000, 7, false, HwAnswer::Miss);
    finds(&rt, &tlb, 0x0000_0000, 7, false, hit(1));
}
