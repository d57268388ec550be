//! A block that two guests share, call by call: how often its frame is held.
use crate::booting::{WITH_A_BLOCK, guests_of};
use crate::guest_core_calls::{Did, kind_of};
use crate::pair::{Pair, Side};
use crate::telling::{must, same};
use base_words::{End, FrameNo};
use guest_core::Loaded;
use std::alloc::Global;
use std::process::Abort;
use std::sync::Wait;

/// Reads block 0 into page 2 by its 7th step, prints its low byte, adds 1, stores it by its 12th step and prints it again.
const READS_A_BLOCK: [u32; 15] = [
    0x3C10_CFFF, // LUI 16, CFFF
    0x3610_F000, // ORI 16, 16, F000: the device page
    0xAE00_0020, // SW 0, 20(16): block 0
    0x2408_0002, // ADDIU 8, 0, 2
    0xAE08_0024, // SW 8, 24(16): page 2
    0x2409_0001, // ADDIU 9, 0, 1
    0xAE09_0028, // SW 9, 28(16): is read
    0x3C0A_C000, // LUI 10, C000
    0x8D4B_2000, // LW 11, 2000(10)
    0xAE0B_0000, // SW 11, 0(16): prints it
    0x256B_0001, // ADDIU 11, 11, 1
    0xAD4B_2000, // SW 11, 2000(10)
    0x8D4B_2000, // LW 11, 2000(10)
    0xAE0B_0000, // SW 11, 0(16): prints it
    0xAE00_0004, // SW 0, 4(16): halts
];

/// The most turns that a guest of these makes.
const TURNS: u32 = 100;

/// Makes turns until so many steps are made, or the guest has ended.
fn run<R: Abort + Wait>(
    rt: &R,
    alloc: Global,
    pair: &mut Pair,
    side: Side,
    steps: u32,
) -> Option<End> {
    let mut made = 0u32;
    for _ in 0..TURNS {
        if made == steps {
            return None;
        }
        match kind_of(must(rt, pair.turn(rt, alloc, side))) {
            Did::Direct | Did::Emulated => made = made.wrapping_add(1),
            Did::Ended(end) => return Some(end),
            _ => {}
        }
    }
    panic!(rt; "it makes no steps");
}

/// Both guests read the block, and then each goes on to its end. The frame is held by the cache, by who has read it, and by nobody else
/// once both have stored to their pages.
fn share_and_break<R: Abort + Wait>(rt: &R, alloc: Global, pair: &mut Pair, frame: FrameNo) {
    assert!(rt; pair.holds_of(frame) == Some(1), "by the cache");
    let rows = [
        (Side::First, 7, 2),
        (Side::Second, 7, 3),
        (Side::First, 5, 2),
    ];
    assert!(rt;
        must(rt, pair.load(Side::First)) == Loaded::Done,
        "it is free"
    );
    assert!(rt;
        must(rt, pair.load(Side::Second)) == Loaded::Done,
        "it is free"
    );
    for (side, steps, holds) in rows {
        assert!(rt; run(rt, alloc, pair, side, steps).is_none(), "it goes on");
        same(
            rt,
            pair.holds_of(frame),
            Some(holds),
            ("after steps", steps),
        );
    }
    for side in [Side::First, Side::Second] {
        let end = run(rt, alloc, pair, side, TURNS);
        assert!(rt; end == Some(End::Halted), "it halts");
        pair.unload(side);
    }
    assert!(rt; pair.holds_of(frame) == Some(1), "by the cache alone");
}

#[test]
fn a_shared_frame_is_held_by_all_that_share_it(rt: HostRuntime) {
    let alloc = rt.alloc();
    let mut pair = guests_of(&rt, alloc, WITH_A_BLOCK, &READS_A_BLOCK, &READS_A_BLOCK);
    let Some(frame) = pair.kept_frame() else {
        panic!(&rt; "the cell keeps the block");
    };
    share_and_break(&rt, alloc, &mut pair, frame);
    let (record, other) = pair.finish(&rt);
    assert!(&rt; record.console.as_slice() == b"ab".as_slice(), "the first");
    assert!(&rt;
        other.record.console.as_slice() == b"ab".as_slice(),
        "the other"
    );
}
