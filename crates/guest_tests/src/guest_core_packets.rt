//! Packets between two guests, call by call.
use crate::booting::two_guests;
use crate::guest_core_calls::{Did, kind_of, try_turns};
use crate::pair::{Left, Pair, Side};
use crate::telling::{must, same};
use base_words::{End, GuestId};
use guest_core::{Loaded, Packeted};
use std::alloc::Global;
use std::process::Abort;
use std::sync::Wait;

/// Sends the numbers 1 to 65 to guest 1, each as a packet of 4 bytes from page 1, prints A and halts.
const SENDS_65: [u32; 17] = [
    0x3C10_CFFF, // LUI 16, CFFF
    0x3610_F000, // ORI 16, 16, F000: the device page
    0x3C0A_C000, // LUI 10, C000
    0x2408_0001, // ADDIU 8, 0, 1
    0xAE08_0030, // SW 8, 30(16): page 1 is sent
    0x2409_0004, // ADDIU 9, 0, 4
    0xAE09_0034, // SW 9, 34(16): 4 bytes of it
    0x240C_0000, // ADDIU 12, 0, 0
    0x240D_0041, // ADDIU 13, 0, 41
    0x258C_0001, // ADDIU 12, 12, 1
    0xAD4C_1000, // SW 12, 1000(10)
    0x158D_FFFD, // BNE 12, 13, to ADDIU 12
    0xAE08_0038, // SW 8, 38(16), in the delay slot: sends to guest 1
    0x2409_0041, // ADDIU 9, 0, 41
    0xAE09_0000, // SW 9, 0(16): prints A
    0xAE00_0004, // SW 0, 4(16): halts
    0x0000_0000,
];

/// Waits and never arms a page: J to itself, and its delay slot.
const NEVER_ARMS: [u32; 2] = [0x0800_0000, 0x0000_0000];

/// Arms page 1, and waits: LUI 16, CFFF; ORI 16, 16, F000; ADDIU 8, 0, 1; SW 8, 3C(16); BEQ 0, 0, to itself; NOP.
const ARMS: [u32; 6] = [
    0x3C10_CFFF,
    0x3610_F000,
    0x2408_0001,
    0xAE08_003C,
    0x1000_FFFF,
    0x0000_0000,
];

/// The most turns that a guest of these makes.
const TURNS: u32 = 1000;

/// Makes turns until the guest has ended.
fn run_to_its_end<R: Abort + Wait>(rt: &R, alloc: Global, pair: &mut Pair, side: Side) {
    assert!(rt; must(rt, pair.load(side)) == Loaded::Done, "it is free");
    for _ in 0..TURNS {
        if kind_of(must(rt, pair.turn(rt, alloc, side))) == Did::Ended(End::Halted) {
            pair.unload(side);
            return;
        }
    }
    panic!(rt; "it never ends");
}

/// Takes the packets 1 to 64 from the wire of guest 0, and finds no other.
fn take_64<R: Abort + Wait>(rt: &R, receiver: &mut Left) {
    for number in 1..=64u32 {
        let Some(packet) = receiver.next_from(rt, GuestId(0)) else {
            panic!(rt; "packet {number} is missing");
        };
        same(rt, packet.length, 4, ("of packet", number));
        assert!(rt; packet.page().word_at(0) == number, "they come in order");
    }
    assert!(rt;
        receiver.next_from(rt, GuestId(0)).is_none(),
        "the last one was refused"
    );
}

#[test]
fn a_wire_that_nobody_takes_from_holds_64_packets(rt: HostRuntime) {
    let alloc = rt.alloc();
    let mut pair = two_guests(&rt, alloc, &SENDS_65, &NEVER_ARMS);
    run_to_its_end(&rt, alloc, &mut pair, Side::First);
    let (sender, mut receiver) = pair.finish(&rt);
    assert!(&rt;
        sender.console.as_slice() == b"A".as_slice(),
        "what the sender printed"
    );
    assert!(&rt; sender.sent.len() == 65, "it sent all");
    assert!(&rt; receiver.record.received.len() == 0, "none was received");
    take_64(&rt, &mut receiver);
}

/// Arms the second guest's page, before anything was sent.
fn arm<R: Abort + Wait>(rt: &R, alloc: Global, pair: &mut Pair) {
    assert!(rt;
        must(rt, pair.load(Side::Second)) == Loaded::Done,
        "it is free"
    );
    try_turns(
        rt,
        alloc,
        pair,
        Side::Second,
        &[
            Did::Refilled,
            Did::Direct,
            Did::Direct,
            Did::Direct,
            Did::Emulated,
        ],
    );
    assert!(rt; pair.second.guest.is_armed(), "its page waits");
    assert!(rt;
        must(rt, pair.packet_in(rt, alloc, Side::Second)) == Packeted::NoneInHand,
        "none was sent"
    );
}

/// Lets a packet come to the second guest, and no other.
fn deliver_one<R: Abort + Wait>(rt: &R, alloc: Global, pair: &mut Pair) {
    assert!(rt;
        must(rt, pair.packet_in(rt, alloc, Side::Second)) == Packeted::Delivered,
        "the first"
    );
    assert!(rt;
        !pair.second.guest.is_armed(),
        "one packet disarms the page"
    );
    assert!(rt;
        must(rt, pair.packet_in(rt, alloc, Side::Second)) == Packeted::NotArmed,
        "no page waits"
    );
}

/// Arms the second guest's page, lets the first one send, and delivers one packet.
fn arm_and_deliver<R: Abort + Wait>(rt: &R, alloc: Global, pair: &mut Pair) {
    arm(rt, alloc, pair);
    run_to_its_end(rt, alloc, pair, Side::First);
    deliver_one(rt, alloc, pair)
}

#[test]
fn a_packet_comes_into_the_armed_page(rt: HostRuntime) {
    let alloc = rt.alloc();
    let mut pair = two_guests(&rt, alloc, &SENDS_65, &ARMS);
    arm_and_deliver(&rt, alloc, &mut pair);
    let (_, receiver) = pair.finish(&rt);
    assert!(&rt; receiver.record.received.len() == 1, "one was received");
}
