//! Two threads, of which one sends numbered packets and the other takes them: none is lost, and they come in order.
ghost use Rattle.std.specs.Prelude.{◌≡◌, IsSome};
ghost use Rattle.wire_queue.specs.Packets.{packet_of};
ghost use Rattle.wire_queue.specs.Lines.{Fits};
ghost use Rattle.wire_queue.specs.Between.{guest_count, line_between};
ghost use Rattle.wire_queue.specs.PassLists.{IsListOf, sending_to, taking_from};

use crate::wire_queue_packets::{end, numbered, send, take, two_guests};
use std::alloc::Global;
use std::process::Abort;
use std::sync::Wait;
use std::thread;
use std::thread::{Threads, join};
use wire_queue::{PassList, Sent, WirePacket, Wires};

const PACKETS: u32 = 20_000;

/// Sends a packet again until it is accepted.
fn deliver<R: Wait>(rt: &R, wires: &Wires, first: &mut PassList, packet: WirePacket)
    requires first { IsListOf wires.now first.old × (first.old.guest.0 ≡ 0) × IsSome (sending_to first.old 1) }
    requires fits { Fits (line_between wires.now 0 1) (packet_of packet) }
    ensures first { IsListOf wires.now first.new × (first.new.guest.0 ≡ 0) × IsSome (sending_to first.new 1) }
{
    let mut next = packet;
    for _turn in rt.forever() {
        match send(rt, wires, first, next) {
            Sent::Ok => return,
            Sent::Full(back) => next = back,
        }
        thread::yield_now();
    }
    unreachable!()
}

/// Sends all packets.
fn send_all<R: Abort + Wait>(rt: &R, alloc: Global, wires: &Wires, mut first: PassList) -> PassList
    requires { IsListOf wires.now first × (first.guest.0 ≡ 0) × IsSome (sending_to first 1) }
    ensures { IsListOf wires.now result × (result.guest.0 ≡ 0) }
{
    for number in 0..PACKETS {
        let packet = numbered(rt, alloc, number);
        deliver(rt, wires, &mut first, packet);
    }
    first
}

/// Takes packets until all have come or one comes out of order; how many came in order.
fn take_all<R: Wait>(rt: &R, wires: &Wires, mut second: PassList) -> (PassList, u32)
    requires { IsListOf wires.now second × (second.guest.0 ≡ 1) × IsSome (taking_from second 0) }
    ensures { IsListOf wires.now result.0 × (result.0.guest.0 ≡ 1) × IsSome (taking_from result.0 0) }
{
    let mut next = 0;
    for _turn in rt.forever() {
        if next >= PACKETS {
            break;
        }
        match take(rt, wires, &mut second) {
            Some(number) if number == next => next += 1,
            Some(_) => break,
            None => thread::yield_now(),
        }
    }
    (second, next)
}

/// Sends on one thread what another takes; how many came in order.
fn exchange<R: Abort + Threads + Wait + Sync>(
    rt: &R,
    alloc: Global,
    wires: &Wires,
    first: PassList,
    second: PassList,
) -> (PassList, PassList, u32)
    requires first { IsListOf wires.now first × (first.guest.0 ≡ 0) × IsSome (sending_to first 1) }
    requires second { IsListOf wires.now second × (second.guest.0 ≡ 1) × IsSome (taking_from second 0) }
    ensures first { IsListOf wires.now result.0 × (result.0.guest.0 ≡ 0) }
    ensures second { IsListOf wires.now result.1 × (result.1.guest.0 ≡ 1) × IsSome (taking_from result.1 0) }
{
    let (sent, (second, count)) = join(
        rt,
        move || -> PassList
            requires { IsListOf wires.now first × (first.guest.0 ≡ 0) × IsSome (sending_to first 1) }
            ensures { IsListOf wires.entry.now result × (result.guest.0 ≡ 0) }
        { send_all(rt, alloc, wires, first) },
        move || -> (PassList, u32)
            requires { IsListOf wires.now second × (second.guest.0 ≡ 1) × IsSome (taking_from second 0) }
            ensures { IsListOf wires.entry.now result.0 × (result.0.guest.0 ≡ 1) × IsSome (taking_from result.0 0) }
        { take_all(rt, wires, second) },
    );
    (sent, second, count)
}

#[test]
fn all_packets_come_in_order(rt: HostRuntime) {
    let (wires, first, second) = two_guests(&rt, rt.alloc());
    let (mut first, mut second, count) = exchange(&rt, rt.alloc(), &wires, first, second);
    assert!(rt; count == PACKETS);
    assert!(rt; second.has_taken(&rt, &wires, &mut first));
    end(&rt, rt.alloc(), wires, first, second);
}
