//! Values worked out by hand from the manual's layout: EntryHi has VPN2 in bits 31 to 13 and ASID in 7 to 0, EntryLo has PFN in
//! 29 to 6, C in 5 to 3, D, V and G in 2, 1 and 0.
use crate::telling::same;
use guest_tlb::{Entry, Tlb48, TlbAnswer};
use std::process::Abort;

/// VPN2 200, ASID 7.
const PAIR: u32 = 0x0040_0007;

/// PFN 5, D and V.
const FIVE: u32 = 0x0000_0146;
/// PFN 6, D and V.
const SIX: u32 = 0x0000_0186;
/// PFN 7, D and V.
const SEVEN: u32 = 0x0000_01C6;

const ZEROS: Entry = Entry {
    hi: 0,
    lo0: 0,
    lo1: 0,
};

/// A TLB at the start, with one entry for the pair.
fn with_pair(lo0: u32, lo1: u32) -> Tlb48 {
    let mut tlb = Tlb48::new();
    tlb.write(20, Entry { hi: PAIR, lo0, lo1 });
    tlb
}

/// An access in an address space is answered so.
fn finds(rt: &impl Abort, tlb: &Tlb48, address: u32, asid: u8, store: bool, answer: TlbAnswer) {
    same(
        rt,
        tlb.lookup(address, asid, store),
        answer,
        (address, asid),
    );
}

/// A probe finds this entry, or none.
fn probes_to(rt: &impl Abort, tlb: &Tlb48, hi: u32, index: Option<u8>, about: &str) {
    same(rt, tlb.probe(hi), index, about);
}

#[test]
fn the_lowest_match_counts(rt: HostRuntime) {
    let mut tlb = Tlb48::new();
    let rows = [
        (9, SIX, TlbAnswer::Hit(6)), // the only match
        (3, FIVE, TlbAnswer::Hit(5)), // 3 is below 9
        (1, SEVEN, TlbAnswer::Hit(7)), // 1 is below 3
        (40, SIX, TlbAnswer::Hit(7)), // 40 is above 1
    ];
    for (index, lo0, answer) in rows {
        tlb.write(
            index,
            Entry {
                hi: PAIR,
                lo0,
                lo1: 0,
            },
        );
        finds(&rt, &tlb, 0x0040_0000, 7, false, answer);
    }
}

#[test]
fn addresses_and_spaces(rt: HostRuntime) {
    let rows = [
        (FIVE, SEVEN, 0x0040_0FFF, 7, TlbAnswer::Hit(5)), // bit 12 clear: the even page
        (FIVE, SEVEN, 0x0040_1000, 7, TlbAnswer::Hit(7)), // bit 12 set: the odd page
        (FIVE, SEVEN, 0x0040_2000, 7, TlbAnswer::Miss), // VPN2 201
        (FIVE, SEVEN, 0x003F_FFFF, 7, TlbAnswer::Miss), // VPN2 1FF
        (FIVE, SEVEN, 0x0040_0000, 8, TlbAnswer::Miss), // another ASID
        (0x147, 0x1C7, 0x0040_0000, 8, TlbAnswer::Hit(5)), // G in both: any ASID
        (0x147, 0x1C6, 0x0040_0000, 8, TlbAnswer::Miss), // G in the even half alone
        (0x146, 0x1C7, 0x0040_0000, 8, TlbAnswer::Miss), // G in the odd half alone
    ];
    for (lo0, lo1, address, asid, answer) in rows {
        let tlb = with_pair(lo0, lo1);
        finds(&rt, &tlb, address, asid, false, answer);
    }
}

#[test]
fn loads_and_stores(rt: HostRuntime) {
    let rows = [
        (0x146, true, TlbAnswer::Hit(5)), // D and V
        (0x142, true, TlbAnswer::ReadOnly), // V alone, and a store
        (0x142, false, TlbAnswer::Hit(5)), // V alone, and a load
        (0x144, true, TlbAnswer::Invalid), // D alone, and a store
        (0x144, false, TlbAnswer::Invalid), // D alone, and a load
        (0x140, true, TlbAnswer::Invalid), // neither: V counts before D
        (0x3FFF_FFFE, true, TlbAnswer::Hit(0xFF_FFFF)), // all of PFN, and C
    ];
    for (lo0, store, answer) in rows {
        let tlb = with_pair(lo0, SEVEN);
        finds(&rt, &tlb, 0x0040_0000, 7, store, answer);
    }
}

#[test]
fn nothing_is_mapped_at_the_start(rt: HostRuntime) {
    let tlb = Tlb48::new();
    for address in [0, 0x7FFF_FFFF, 0xD000_0000] {
        finds(&rt, &tlb, address, 0, false, TlbAnswer::Miss);
    }
}

#[test]
fn entries_at_the_start(rt: HostRuntime) {
    let tlb = Tlb48::new();
    let rows = [
        (0, 0x8000_0000), // the first address that isn't mapped
        (1, 0x8000_2000), // one pair of pages on
        (47, 0x8005_E000), // 2F pairs on: 2F times 2000 is 5E000
        (48, 0), // past the last
        (63, 0), // the highest number that Index holds
        (255, 0), // the highest number
    ];
    for (index, hi) in rows {
        assert!(rt; tlb.read(index) == Entry { hi, lo0: 0, lo1: 0 });
    }
}

#[test]
fn a_write_past_the_last(rt: HostRuntime) {
    for index in [48, 63, 255] {
        let mut tlb = Tlb48::new();
        let entry = Entry {
            hi: PAIR,
            lo0: FIVE,
            lo1: SEVEN,
        };
        tlb.write(index, entry);
        assert!(rt; tlb == Tlb48::new());
        assert!(rt; tlb.read(index) == ZEROS);
    }
}

#[test]
fn what_an_entry_keeps(rt: HostRuntime) {
    let rows = [
        (PAIR, 0x147, 0x1C7, PAIR, 0x147, 0x1C7), // G in both
        (PAIR, 0x147, 0x1C6, PAIR, 0x146, 0x1C6), // G in the even half alone
        (PAIR, 0x146, 0x1C7, PAIR, 0x146, 0x1C6), // G in the odd half alone
        (0x0040_1F07, 0x146, 0x1C6, PAIR, 0x146, 0x1C6), // bits 12 to 8 of EntryHi
        (PAIR, 0xC000_0146, 0xC000_01C6, PAIR, 0x146, 0x1C6), // bits 31 and 30 of EntryLo
        (
            0xFFFF_FFFF,
            0xFFFF_FFFF,
            0xFFFF_FFFF,
            0xFFFF_E0FF,
            0x3FFF_FFFF,
            0x3FFF_FFFF,
        ), // all fields
    ];
    for (hi, lo0, lo1, kept_hi, kept_lo0, kept_lo1) in rows {
        let mut tlb = Tlb48::new();
        tlb.write(47, Entry { hi, lo0, lo1 });
        let kept = Entry {
            hi: kept_hi,
            lo0: kept_lo0,
            lo1: kept_lo1,
        };
        assert!(rt; tlb.read(47) == kept);
    }
}

#[test]
fn probes(rt: HostRuntime) {
    probes_to(&rt, &Tlb48::new(), 0, None, "at the start");
    let mut tlb = with_pair(FIVE, SEVEN);
    probes_to(&rt, &tlb, 0x0040_0007, Some(20), "the pair");
    probes_to(&rt, &tlb, 0x0040_1F07, Some(20), "bits 12 to 8 don't count");
    probes_to(&rt, &tlb, 0x0040_0008, None, "another ASID");
    probes_to(&rt, &tlb, 0x0040_2007, None, "VPN2 201");
    tlb.write(11, tlb.read(20));
    probes_to(&rt, &tlb, 0x0040_0007, Some(11), "the lowest of two");
    let tlb = with_pair(0x147, 0x1C7);
    probes_to(&rt, &tlb, 0x0040_0008, Some(20), "G in both: any ASID");
}
