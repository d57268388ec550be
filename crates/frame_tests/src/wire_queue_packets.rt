//! Two guests on one thread: packets whose first word is a number, with what they come to worked out by hand.
ghost use Rattle.std.specs.Prelude.{◌≡◌, [], ◌∷◌, IsSome};
ghost use Rattle.wire_queue.specs.Packets.{packet_of};
ghost use Rattle.wire_queue.specs.Lines.{Fits};
ghost use Rattle.wire_queue.specs.Between.{Made, guest_count, line_between};
ghost use Rattle.wire_queue.specs.PassLists.{IsListOf, sending_to, taking_from};
ghost use Rattle.wire_queue.specs.declared.packet.WirePacket.{WirePacket};

use crate::shapes::{cells_of, shape_of};
use crate::telling::gave;
use base_words::{CellId, FrameNo, GuestId, Page, SharedFrame};
use std::alloc::Global;
use std::process::Abort;
use std::sync::{Arc, Wait};
use wire_queue::{AllPasses, Body, PassList, Sent, WirePacket, Wires, each_guest_has_its_list};

/// The wires between two guests that live on cell 0, of two nodes of 16 frames, one a cell; and the two lists of passes.
pub fn two_guests(rt: &impl Abort, alloc: Global) -> (Wires, PassList, PassList)
    ensures wires { guest_count result.0 ≡ 2 }
    ensures terms { result.0.terms ≡ record {
      frames = 16;
      cells = record { 0 = 0 } ∷ record { 0 = 1 } ∷ [];
      homes = record { 0 = 0 } ∷ record { 0 = 0 } ∷ [];
    } }
    ensures first { IsListOf result.0 result.1 × (result.1.guest.0 ≡ 0) × IsSome (sending_to result.1 1) }
    ensures second { IsListOf result.0 result.2 × (result.2.guest.0 ≡ 1) × IsSome (taking_from result.2 0) }
{
    each_guest_has_its_list();
    let shape = shape_of(rt, alloc, 16, &[CellId(0), CellId(1)]);
    let homes = cells_of(rt, alloc, &[CellId(0), CellId(0)]);
    let Ok((wires, passes)) = Wires::new(alloc, 2, &shape, &homes) else {
        panic!(rt; "no memory is left");
    };
    let mut lists = passes.into_vec();
    let second = lists.remove(1);
    let first = lists.remove(0);
    (wires, first, second)
}

/// A packet of guest 0 of four bytes, a number.
pub fn numbered(rt: &impl Abort, alloc: Global, number: u32) -> WirePacket
    ensures { (wires : Made) → Fits (line_between wires 0 1) (packet_of result) }
{
    let mut page = gave(rt, Page::zeroed(alloc));
    page.set_word(0, number);
    WirePacket {
        from: GuestId(0),
        length: 4,
        cell: CellId(0),
        body: Body::Plain(page),
    }
}

/// Guest 0 sends a packet to guest 1.
pub fn send<R: Wait>(rt: &R, wires: &Wires, first: &mut PassList, packet: WirePacket) -> Sent
    requires first { IsListOf wires.now first.old × (first.old.guest.0 ≡ 0) × IsSome (sending_to first.old 1) }
    requires fits { Fits (line_between wires.now 0 1) (packet_of packet) }
    ensures first { IsListOf wires.now first.new × (first.new.guest.0 ≡ 0) × IsSome (sending_to first.new 1) }
    ensures back { (back : WirePacket) → result ≡ Sent.Full back → back ≡ packet }
{
    first.send(rt, wires, GuestId(1), packet)
}

/// Guest 1 takes the number of the next packet from guest 0.
pub fn take<R: Wait>(rt: &R, wires: &Wires, second: &mut PassList) -> Option<u32>
    requires second { IsListOf wires.now second.old × (second.old.guest.0 ≡ 1) × IsSome (taking_from second.old 0) }
    ensures second { IsListOf wires.now second.new × (second.new.guest.0 ≡ 1) × IsSome (taking_from second.new 0) }
{
    let packet = second.receive(rt, wires, GuestId(0))?;
    Some(packet.page().word_at(0))
}

/// How many of the packets numbered below a count the wire accepts.
fn accepted<R: Abort + Wait>(
    rt: &R,
    alloc: Global,
    wires: &Wires,
    first: &mut PassList,
    count: u32,
) -> u32
    requires first { IsListOf wires.now first.old × (first.old.guest.0 ≡ 0) × IsSome (sending_to first.old 1) }
    ensures first { IsListOf wires.now first.new × (first.new.guest.0 ≡ 0) × IsSome (sending_to first.new 1) }
{
    let mut accepted = 0;
    for number in 0..count {
        let packet = numbered(rt, alloc, number);
        if let Sent::Ok = send(rt, wires, first, packet) {
            accepted += 1;
        }
    }
    accepted
}

/// How many packets stand on the wire, of those that are numbered from 0 on in order.
fn taken<R: Wait>(rt: &R, wires: &Wires, second: &mut PassList) -> u32
    requires second { IsListOf wires.now second.old × (second.old.guest.0 ≡ 1) × IsSome (taking_from second.old 0) }
    ensures second { IsListOf wires.now second.new × (second.new.guest.0 ≡ 1) × IsSome (taking_from second.new 0) }
{
    for number in 0..1000 {
        if take(rt, wires, second) != Some(number) {
            return number;
        }
    }
    1000
}

/// Ends the wires with both lists.
pub fn end(rt: &impl Abort, alloc: Global, wires: Wires, first: PassList, second: PassList)
    requires wires { guest_count wires ≡ 2 }
    requires first { IsListOf wires first × (first.guest.0 ≡ 0) }
    requires second { IsListOf wires second × (second.guest.0 ≡ 1) }
{
    let mut lists = Vec::new(alloc);
    gave(rt, lists.push(first));
    gave(rt, lists.push(second));
    wires.close(AllPasses::from_vec(lists));
}

/// How many of 64 packets the wire accepts, and the number of the next one, which comes back.
fn filled<R: Abort + Wait>(rt: &R, alloc: Global, wires: &Wires, first: &mut PassList) -> (u32, u32)
    requires first { IsListOf wires.now first.old × (first.old.guest.0 ≡ 0) × IsSome (sending_to first.old 1) }
    ensures first { IsListOf wires.now first.new × (first.new.guest.0 ≡ 0) × IsSome (sending_to first.new 1) }
{
    let accepted = accepted(rt, alloc, wires, first, 64);
    let last = numbered(rt, alloc, 64);
    let Sent::Full(back) = send(rt, wires, first, last) else {
        panic!(rt; "64 stand on the wire")
    };
    (accepted, back.page().word_at(0))
}

/// How many packets stand on the wire in order, and the number of one more, if there is one.
fn emptied<R: Wait>(rt: &R, wires: &Wires, second: &mut PassList) -> (u32, Option<u32>)
    requires second { IsListOf wires.now second.old × (second.old.guest.0 ≡ 1) × IsSome (taking_from second.old 0) }
    ensures second { IsListOf wires.now second.new × (second.new.guest.0 ≡ 1) × IsSome (taking_from second.new 0) }
{
    (taken(rt, wires, second), take(rt, wires, second))
}

#[test]
fn the_65th_packet_is_refused(rt: HostRuntime) {
    let (wires, mut first, mut second) = two_guests(&rt, rt.alloc());
    let filled = filled(&rt, rt.alloc(), &wires, &mut first);
    let has_taken = second.has_taken(&rt, &wires, &mut first);
    let emptied = emptied(&rt, &wires, &mut second);
    end(&rt, rt.alloc(), wires, first, second);
    assert!(rt; (filled, has_taken, emptied) == ((64, 64), false, (64, None)));
}

/// A packet of guest 0 that is a whole page: frame 3, which lies on cell 0, under generation 7.
fn whole(rt: &impl Abort, alloc: Global, first: u8) -> WirePacket
    ensures { (wires : Made) → wires.terms ≡ record {
      frames = 16;
      cells = record { 0 = 0 } ∷ record { 0 = 1 } ∷ [];
      homes = record { 0 = 0 } ∷ record { 0 = 0 } ∷ [];
    }
        → Fits (line_between wires 0 1) (packet_of result) }
{
    let mut page = gave(rt, Page::zeroed(alloc));
    page.set_byte(0, first);
    let frame = SharedFrame {
        number: FrameNo(3),
        generation: 7,
        page: gave(rt, Arc::new(alloc, page)),
    };
    WirePacket {
        from: GuestId(0),
        length: 4096,
        cell: CellId(0),
        body: Body::Whole(frame),
    }
}

/// The packet is the whole page, whose first byte is 5.
fn is_whole(rt: &impl Abort, packet: &WirePacket) {
    assert!(rt; (packet.from, packet.length, packet.cell) == (GuestId(0), 4096, CellId(0)));
    let Body::Whole(frame) = &packet.body else {
        panic!(rt; "the first is whole")
    };
    assert!(rt; (frame.number, frame.generation, frame.page.byte_at(0)) == (FrameNo(3), 7, 5));
}

/// The packet is a copy of four bytes, a number.
fn is_copy(rt: &impl Abort, packet: &WirePacket, number: u32) {
    assert!(rt; (packet.length, packet.page().word_at(0)) == (4, number));
    assert!(rt; matches!(packet.body, Body::Plain(_)));
}

#[test]
fn a_whole_page_and_a_copy_go_in_order(rt: HostRuntime) {
    let (wires, mut first, mut second) = two_guests(&rt, rt.alloc());
    let packet = whole(&rt, rt.alloc(), 5);
    assert!(rt; matches!(send(&rt, &wires, &mut first, packet), Sent::Ok));
    let packet = numbered(&rt, rt.alloc(), 6);
    assert!(rt; matches!(send(&rt, &wires, &mut first, packet), Sent::Ok));
    let Some(packet) = second.receive(&rt, &wires, GuestId(0)) else {
        panic!(rt; "two stand on the wire")
    };
    is_whole(&rt, &packet);
    let Some(packet) = second.receive(&rt, &wires, GuestId(0)) else {
        panic!(rt; "one stands on the wire")
    };
    is_copy(&rt, &packet, 6);
    assert!(rt; second.has_taken(&rt, &wires, &mut first));
    end(&rt, rt.alloc(), wires, first, second);
}
