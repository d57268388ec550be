//! Loads and stores, big-endian, with values worked out by hand from the manual's descriptions.
use crate::mips_alu_rig::{asks, gives, holding, r};
use crate::telling::same;
use base_words::{Instr, LoadKind, Request, StoreKind};
use mips_alu::{load_unit, loaded_value, store_unit, stored_word};

/// The word in memory, the byte at its address first.
const WORD: u32 = 0x8172_73F4;

/// The register, as it was before.
const REGISTER: u32 = 0xAABB_CCDD;

/// A base, an offset, which extends its sign, and the address that they give.
const ADDRESSES: [(u32, u16, u32); 6] = [
    (0x0000_1000, 0x0000, 0x0000_1000),
    (0x0000_1000, 0x7FFF, 0x0000_8FFF),
    (0x0000_1000, 0xFFFC, 0x0000_0FFC),
    (0x8000_0000, 0x8000, 0x7FFF_8000),
    (0xFFFF_FFFF, 0x0001, 0x0000_0000),
    (0x0000_0000, 0xFFFF, 0xFFFF_FFFF),
];

/// LB, LH, LWL, LW, LBU, LHU and LWR.
const LOADS: [LoadKind; 7] = [
    LoadKind::Byte,
    LoadKind::HalfWord,
    LoadKind::WordLeft,
    LoadKind::Word,
    LoadKind::ByteUnsigned,
    LoadKind::HalfWordUnsigned,
    LoadKind::WordRight,
];

/// SB, SH, SWL, SW and SWR.
const STORES: [StoreKind; 5] = [
    StoreKind::Byte,
    StoreKind::HalfWord,
    StoreKind::WordLeft,
    StoreKind::Word,
    StoreKind::WordRight,
];

/// What a load of a byte's address gives; none where the address isn't aligned.
fn loaded(kind: LoadKind, byte: u32) -> Option<u32> {
    if byte < 4 && byte % load_unit(kind) == 0 {
        Some(loaded_value(kind, WORD, REGISTER, byte))
    } else {
        None
    }
}

/// What a store to a byte's address leaves of the word; none where the address isn't aligned.
fn stored(kind: StoreKind, byte: u32) -> Option<u32> {
    if byte < 4 && byte % store_unit(kind) == 0 {
        Some(stored_word(kind, WORD, REGISTER, byte))
    } else {
        None
    }
}

#[test]
fn each_byte_that_is_loaded_from(rt: HostRuntime) {
    let rows = [
        (LoadKind::Byte, 0, Some(0xFFFF_FF81)),
        (LoadKind::Byte, 1, Some(0x0000_0072)),
        (LoadKind::Byte, 2, Some(0x0000_0073)),
        (LoadKind::Byte, 3, Some(0xFFFF_FFF4)),
        (LoadKind::HalfWord, 0, Some(0xFFFF_8172)),
        (LoadKind::HalfWord, 1, None),
        (LoadKind::HalfWord, 2, Some(0x0000_73F4)),
        (LoadKind::HalfWord, 3, None),
        (LoadKind::WordLeft, 0, Some(0x8172_73F4)),
        (LoadKind::WordLeft, 1, Some(0x7273_F4DD)),
        (LoadKind::WordLeft, 2, Some(0x73F4_CCDD)),
        (LoadKind::WordLeft, 3, Some(0xF4BB_CCDD)),
        (LoadKind::Word, 0, Some(0x8172_73F4)),
        (LoadKind::Word, 1, None),
        (LoadKind::Word, 2, None),
        (LoadKind::Word, 3, None),
        (LoadKind::ByteUnsigned, 0, Some(0x0000_0081)),
        (LoadKind::ByteUnsigned, 1, Some(0x0000_0072)),
        (LoadKind::ByteUnsigned, 2, Some(0x0000_0073)),
        (LoadKind::ByteUnsigned, 3, Some(0x0000_00F4)),
        (LoadKind::HalfWordUnsigned, 0, Some(0x0000_8172)),
        (LoadKind::HalfWordUnsigned, 1, None),
        (LoadKind::HalfWordUnsigned, 2, Some(0x0000_73F4)),
        (LoadKind::HalfWordUnsigned, 3, None),
        (LoadKind::WordRight, 0, Some(0xAABB_CC81)),
        (LoadKind::WordRight, 1, Some(0xAABB_8172)),
        (LoadKind::WordRight, 2, Some(0xAA81_7273)),
        (LoadKind::WordRight, 3, Some(0x8172_73F4)),
    ];
    for (kind, byte, value) in rows {
        same(&rt, loaded(kind, byte), value, ("from byte", kind, byte));
    }
}

#[test]
fn each_byte_that_is_stored_to(rt: HostRuntime) {
    let rows = [
        (StoreKind::Byte, 0, Some(0xDD72_73F4)),
        (StoreKind::Byte, 1, Some(0x81DD_73F4)),
        (StoreKind::Byte, 2, Some(0x8172_DDF4)),
        (StoreKind::Byte, 3, Some(0x8172_73DD)),
        (StoreKind::HalfWord, 0, Some(0xCCDD_73F4)),
        (StoreKind::HalfWord, 1, None),
        (StoreKind::HalfWord, 2, Some(0x8172_CCDD)),
        (StoreKind::HalfWord, 3, None),
        (StoreKind::WordLeft, 0, Some(0xAABB_CCDD)),
        (StoreKind::WordLeft, 1, Some(0x81AA_BBCC)),
        (StoreKind::WordLeft, 2, Some(0x8172_AABB)),
        (StoreKind::WordLeft, 3, Some(0x8172_73AA)),
        (StoreKind::Word, 0, Some(0xAABB_CCDD)),
        (StoreKind::Word, 1, None),
        (StoreKind::Word, 2, None),
        (StoreKind::Word, 3, None),
        (StoreKind::WordRight, 0, Some(0xDD72_73F4)),
        (StoreKind::WordRight, 1, Some(0xCCDD_73F4)),
        (StoreKind::WordRight, 2, Some(0xBBCC_DDF4)),
        (StoreKind::WordRight, 3, Some(0xAABB_CCDD)),
    ];
    for (kind, byte, word) in rows {
        same(&rt, stored(kind, byte), word, ("to byte", kind, byte));
    }
}

/// A word that begins at byte 1 of the words 00112233 and 44556677, loaded and stored by a pair of instructions in either order.
#[test]
fn a_word_across_two(rt: HostRuntime) {
    let left = loaded_value(LoadKind::WordLeft, 0x0011_2233, REGISTER, 1);
    let both = loaded_value(LoadKind::WordRight, 0x4455_6677, left, 0);
    assert!(rt; both == 0x1122_3344);
    let right = loaded_value(LoadKind::WordRight, 0x4455_6677, REGISTER, 0);
    let both = loaded_value(LoadKind::WordLeft, 0x0011_2233, right, 1);
    assert!(rt; both == 0x1122_3344);
    let first = stored_word(StoreKind::WordLeft, 0x0011_2233, REGISTER, 1);
    let second = stored_word(StoreKind::WordRight, 0x4455_6677, REGISTER, 0);
    assert!(rt; (first, second) == (0x00AA_BBCC, 0xDD55_6677));
}

/// Register 1 is the base, and register 2 what is loaded. An address that isn't aligned is asked for as it is.
#[test]
fn what_loads_ask_for(rt: HostRuntime) {
    for (base, offset, address) in ADDRESSES {
        let before = holding(base, REGISTER);
        for kind in LOADS {
            let instr = Instr::Load {
                kind,
                base: r(1),
                rt: r(2),
                offset,
            };
            let asked = Request::Load {
                kind,
                address,
                target: r(2),
            };
            let want = asks(before, asked);
            gives(&rt, instr, before, want);
        }
    }
}

/// Register 1 is the base, and register 2 what is stored.
#[test]
fn what_stores_ask_for(rt: HostRuntime) {
    for (base, offset, address) in ADDRESSES {
        let before = holding(base, REGISTER);
        for kind in STORES {
            let instr = Instr::Store {
                kind,
                base: r(1),
                rt: r(2),
                offset,
            };
            let asked = Request::Store {
                kind,
                address,
                value: REGISTER,
            };
            let want = asks(before, asked);
            gives(&rt, instr, before, want);
        }
    }
}

/// LL, and SC, whose register is what is stored and where its success is told.
#[test]
fn what_ll_and_sc_ask_for(rt: HostRuntime) {
    for (base, offset, address) in ADDRESSES {
        let before = holding(base, REGISTER);
        let (base, rt_of, target) = (r(1), r(2), r(2));
        let linked = Instr::LoadLinked {
            base,
            rt: rt_of,
            offset,
        };
        let want = asks(before, Request::LoadLinked { address, target });
        gives(&rt, linked, before, want);
        let conditional = Instr::StoreConditional {
            base,
            rt: rt_of,
            offset,
        };
        let asked = Request::StoreConditional {
            address,
            value: REGISTER,
            target,
        };
        let want = asks(before, asked);
        gives(&rt, conditional, before, want);
    }
}
