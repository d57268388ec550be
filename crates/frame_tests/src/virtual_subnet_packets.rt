//! Packets that are offered, that go over a wire, and that are accepted, with what they come to worked out by hand.
ghost use Rattle.std.specs.Prelude.{◌≡◌, ℕ, ◌<◌, ◌≤◌, [], ◌∷◌, Some, None, IfSome, IsSome};
ghost use Rattle.frame_words.specs.Holders.{IsMade};
ghost use Rattle.frame_words.specs.Views.{frame_holds};
ghost use Rattle.wire_queue.specs.Packets.{packet_of, whole_of};
ghost use Rattle.wire_queue.specs.Lines.{Fits};
ghost use Rattle.wire_queue.specs.Between.{Made, guest_count, line_between};
ghost use Rattle.wire_queue.specs.PassLists.{IsListOf, sending_to, taking_from};
ghost use Rattle.virtual_subnet.specs.Offering.{handed_of};
ghost use Rattle.virtual_subnet.specs.Accepting.{HasFrameBelow};

use crate::shapes::{cells_of, shape_of};
use crate::telling::{gave, must};
use base_words::{CellId, CellSet, FrameList, FrameNo, GuestId, Page, SharedFrame};
use frame_words::{FrameTable, Holder, Took, give_back, split, take};
use std::alloc::Global;
use std::process::Abort;
use std::sync::{Arc, Wait};
use virtual_subnet::{
    Accept, CopyCause, accept, accepted_tells, frames_on_wires, offer, offered_fits,
};
use wire_queue::{AllPasses, Body, PassList, Sent, WirePacket, Wires, each_guest_has_its_list};

/// A generation's place in a frame's word.
const GENERATION: u64 = 4_294_967_296;

/// A page whose first byte is 7, its last but one 8, its last 9, and all others 0.
fn marked(rt: &impl Abort, alloc: Global) -> Arc<Box<Page>> {
    let mut page = gave(rt, Page::zeroed(alloc));
    page.set_byte(0, 7);
    page.set_byte(4094, 8);
    page.set_byte(4095, 9);
    must(rt, Arc::new(alloc, page))
}

/// Frame 3 under a generation, with the marked page.
fn frame(rt: &impl Abort, alloc: Global, generation: u32) -> SharedFrame
    ensures { handed_of result ≡ record { frame = 3; generation = generation } }
{
    SharedFrame {
        number: FrameNo(3),
        generation,
        page: marked(rt, alloc),
    }
}

/// A packet of guest 0 of the first bytes of frame 3, under generation 5, which lies on cell 0.
fn packet(rt: &impl Abort, alloc: Global, length: u32, is_shared: bool) -> WirePacket
    requires { (1 ≤ length) × (length ≤ 4096) }
    ensures length { result.length ≡ length }
    ensures fits { (wires : Made) → wires.terms ≡ record {
      frames = 16;
      cells = record { 0 = 0 } ∷ record { 0 = 1 } ∷ [];
      homes = record { 0 = 1 } ∷ record { 0 = 0 } ∷ [];
    } → Fits (line_between wires 0 1) (packet_of result) }
{
    offered_fits();
    let frame = frame(rt, alloc, 5);
    let shared = if is_shared { Some(&frame) } else { None };
    gave(
        rt,
        offer(alloc, &frame.page, length, shared, CellId(0), GuestId(0)),
    )
}

/// What a test sees of a packet: its fields, the frame that it hands on and under which generation, its first byte and its last.
#[derive(Clone, Copy, Debug, PartialEq, Eq)]
struct Seen {
    from: GuestId,
    length: u32,
    cell: CellId,
    frame: Option<(FrameNo, u32)>,
    first: u8,
    last: u8,
}

fn look_at(packet: &WirePacket) -> Seen
    requires { (1 ≤ packet.now.length) × (packet.now.length ≤ 4096) }
{
    let frame = match &packet.body {
        Body::Whole(frame) => Some((frame.number, frame.generation)),
        Body::Plain(_) => None,
    };
    Seen {
        from: packet.from,
        length: packet.length,
        cell: packet.cell,
        frame,
        first: packet.page().byte_at(0),
        last: packet.page().byte_at(packet.length - 1),
    }
}

/// A packet of guest 0 from cell 0, whose first byte is 7.
fn expected(length: u32, last: u8, frame: Option<(FrameNo, u32)>) -> Seen {
    Seen {
        from: GuestId(0),
        length,
        cell: CellId(0),
        frame,
        first: 7,
        last,
    }
}

/// A packet of the first bytes of frame 3, of a frame that is shared or not, looks so.
fn looks(rt: &impl Abort, alloc: Global, length: u32, is_shared: bool, want: Seen)
    requires { (1 ≤ length) × (length ≤ 4096) }
{
    let packet = packet(rt, alloc, length, is_shared);
    assert!(rt; look_at(&packet) == want);
}

#[test]
fn a_packet_is_whole_where_it_is_a_page_of_a_shared_frame(rt: HostRuntime) {
    let alloc = rt.alloc();
    let whole = Some((FrameNo(3), 5));
    looks(&rt, alloc, 1, false, expected(1, 7, None));
    looks(&rt, alloc, 4095, false, expected(4095, 8, None));
    looks(&rt, alloc, 4096, false, expected(4096, 9, None));
    looks(&rt, alloc, 1, true, expected(1, 7, None));
    looks(&rt, alloc, 4095, true, expected(4095, 8, None));
    looks(&rt, alloc, 4096, true, expected(4096, 9, whole));
}

/// The wires between two guests, of which the second lives on cell 0, and their passes. There are two nodes of 16 frames, on cells
/// 0 and 1.
fn two_guests(rt: &impl Abort, alloc: Global) -> (Wires, PassList, PassList)
    ensures wires { guest_count result.0 ≡ 2 }
    ensures terms { result.0.terms ≡ record {
      frames = 16;
      cells = record { 0 = 0 } ∷ record { 0 = 1 } ∷ [];
      homes = record { 0 = 1 } ∷ record { 0 = 0 } ∷ [];
    } }
    ensures first { IsListOf result.0 result.1 × (result.1.guest.0 ≡ 0) × IsSome (sending_to result.1 1) }
    ensures second { IsListOf result.0 result.2 × (result.2.guest.0 ≡ 1) × IsSome (taking_from result.2 0) }
{
    each_guest_has_its_list();
    let shape = shape_of(rt, alloc, 16, &[CellId(0), CellId(1)]);
    let homes = cells_of(rt, alloc, &[CellId(1), CellId(0)]);
    let Ok((wires, passes)) = Wires::new(alloc, 2, &shape, &homes) else {
        panic!(rt; "no memory is left");
    };
    let mut lists = passes.into_vec();
    let second = lists.remove(1);
    let first = lists.remove(0);
    (wires, first, second)
}

/// Guest 0 sends a packet to guest 1, which takes the next one from the wire.
fn carried<R: Wait>(
    rt: &R,
    wires: &Wires,
    first: &mut PassList,
    second: &mut PassList,
    packet: WirePacket,
) -> Option<WirePacket>
    requires first { IsListOf wires.now first.old × (first.old.guest.0 ≡ 0) × IsSome (sending_to first.old 1) }
    requires second { IsListOf wires.now second.old × (second.old.guest.0 ≡ 1) × IsSome (taking_from second.old 0) }
    requires fits { Fits (line_between wires.now 0 1) (packet_of packet) }
    ensures first { IsListOf wires.now first.new × (first.new.guest.0 ≡ 0) × IsSome (sending_to first.new 1) }
    ensures second { IsListOf wires.now second.new × (second.new.guest.0 ≡ 1) × IsSome (taking_from second.new 0) }
    ensures fits { IfSome result (λ packet. Fits (line_between wires.now 0 1) (packet_of packet)) }
{
    let Sent::Ok = first.send(rt, wires, GuestId(1), packet) else {
        return None;
    };
    second.receive(rt, wires, GuestId(0))
}

/// Ends the wires with both lists.
fn end(rt: &impl Abort, alloc: Global, wires: Wires, first: PassList, second: PassList)
    requires wires { guest_count wires ≡ 2 }
    requires first { IsListOf wires first × (first.guest.0 ≡ 0) }
    requires second { IsListOf wires second × (second.guest.0 ≡ 1) }
{
    let mut lists = Vec::new(alloc);
    gave(rt, lists.push(first));
    gave(rt, lists.push(second));
    wires.close(AllPasses::from_vec(lists));
}

#[test]
fn a_packet_comes_from_the_wire_as_it_was_offered(rt: HostRuntime) {
    let (wires, mut first, mut second) = two_guests(&rt, rt.alloc());
    let offered = packet(&rt, rt.alloc(), 4095, true);
    let Some(copy) = carried(&rt, &wires, &mut first, &mut second, offered) else {
        panic!(rt; "the wire was empty")
    };
    assert!(rt; look_at(&copy) == expected(4095, 8, None));
    let offered = packet(&rt, rt.alloc(), 4096, true);
    let Some(whole_page) = carried(&rt, &wires, &mut first, &mut second, offered) else {
        panic!(rt; "the wire was empty")
    };
    assert!(rt; look_at(&whole_page) == expected(4096, 9, Some((FrameNo(3), 5))));
    end(&rt, rt.alloc(), wires, first, second);
}

/// A whole page of frame 3, under generation 5, as it comes from the wire.
fn sent<R: Abort + Wait>(rt: &R, alloc: Global) -> WirePacket
    ensures { HasFrameBelow 32 (packet_of result) }
{
    frames_on_wires();
    let (wires, mut first, mut second) = two_guests(rt, alloc);
    let offered = packet(rt, alloc, 4096, true);
    let Some(taken) = carried(rt, &wires, &mut first, &mut second, offered) else {
        panic!(rt; "the wire was empty")
    };
    end(rt, alloc, wires, first, second);
    taken
}

/// Frame 3 is taken under generation 5, and the packet that hands it on is remapped.
fn remaps_sent(rt: &impl Abort, table: &FrameTable, holder: &mut Holder, packet: &WirePacket)
    requires made { IsMade table.now holder.old }
    requires frames { table.now.terms.frames ≡ 32 }
    requires within { HasFrameBelow 32 (packet_of packet.now) }
{
    assert!(rt; take(table, holder, FrameNo(3)) == Took::Took(5));
    let answer = accept(table, holder, CellSet::empty(), packet);
    assert!(rt; answer == Accept::Remapped);
}

#[test]
fn a_page_that_was_sent_is_remapped(rt: HostRuntime) {
    let (table, mut holder) = gave(&rt, FrameTable::new(rt.alloc(), 32, &[1, 1], 4));
    let packet = sent(&rt, rt.alloc());
    remaps_sent(&rt, &table, &mut holder, &packet);
}

/// A packet of 4096 bytes from cell 2, which hands on frame 3 under a generation.
fn whole(rt: &impl Abort, alloc: Global, generation: u32) -> WirePacket
    ensures { whole_of result.body ≡ Some (record { frame = 3; generation = generation }) }
{
    let frame = frame(rt, alloc, generation);
    let shared = Some(&frame);
    gave(
        rt,
        offer(alloc, &frame.page, 4096, shared, CellId(2), GuestId(0)),
    )
}

/// A packet from a cell, of 4095 bytes.
fn plain(rt: &impl Abort, alloc: Global, cell: CellId) -> WirePacket
    ensures none { whole_of result.body ≡ None }
    ensures other { IfSome (whole_of result.body) (λ handed. handed.frame ≡ 3) }
{
    let frame = frame(rt, alloc, 1);
    gave(
        rt,
        offer(alloc, &frame.page, 4095, Some(&frame), cell, GuestId(0)),
    )
}

/// What becomes of a packet that hands on frame 3, or no frame.
fn accepted(table: &FrameTable, holder: &mut Holder, dead: CellSet, packet: &WirePacket) -> Accept
    requires made { IsMade table.now holder.old }
    requires frames { table.now.terms.frames ≡ 16 }
    requires whole { IfSome (whole_of packet.now.body) (λ handed. handed.frame ≡ 3) }
    ensures holds { result ≡ Accept.Remapped → IsSome (whole_of packet.now.body) → 0 < frame_holds holder.new.view 3 }
    ensures same { holder.new.table ≡ holder.old.table }
{
    accepted_tells();
    accept(table, holder, dead, packet)
}

/// What becomes of frame 3 where a holder takes it.
fn taken(table: &FrameTable, holder: &mut Holder) -> Took
    requires made { IsMade table.now holder.old }
    requires frames { table.now.terms.frames ≡ 16 }
    ensures holds { (generation : ℕ) → result ≡ Took.Took generation → 0 < frame_holds holder.new.view 3 }
    ensures same { holder.new.table ≡ holder.old.table }
{
    take(table, holder, FrameNo(3))
}

/// Frame 3 is taken, a whole page and a copy from a failed cell are discarded, and the frame is held once as before.
fn discards(
    rt: &impl Abort,
    table: &FrameTable,
    holder: &mut Holder,
    whole: &WirePacket,
    copy: &WirePacket,
)
    requires made { IsMade table.now holder.old }
    requires frames { table.now.terms.frames ≡ 16 }
    requires whole { IfSome (whole_of whole.now.body) (λ handed. handed.frame ≡ 3) }
    requires copy { IfSome (whole_of copy.now.body) (λ handed. handed.frame ≡ 3) }
{
    assert!(rt; taken(table, holder) == Took::Took(1));
    let dead = CellSet::empty().with(CellId(2));
    let discarded = Accept::Discarded(CellId(2));
    assert!(rt; accepted(table, holder, dead, whole) == discarded);
    assert!(rt; accepted(table, holder, dead, copy) == discarded);
    assert!(rt; taken(table, holder) == Took::Held(GENERATION + 1));
}

#[test]
fn a_packet_of_a_failed_cell_is_discarded(rt: HostRuntime) {
    let (table, mut holder) = gave(&rt, FrameTable::new(rt.alloc(), 16, &[1], 0));
    let packet = whole(&rt, rt.alloc(), 1);
    let copy = plain(&rt, rt.alloc(), CellId(2));
    discards(&rt, &table, &mut holder, &packet, &copy);
}

#[test]
fn a_copy_is_plain(rt: HostRuntime) {
    let (table, mut holder) = gave(&rt, FrameTable::new(rt.alloc(), 16, &[1], 0));
    let others = CellSet::empty()
        .with(CellId(0))
        .with(CellId(1))
        .with(CellId(3));
    let copy = plain(&rt, rt.alloc(), CellId(2));
    assert!(rt; accept(&table, &mut holder, others, &copy) == Accept::Copied(CopyCause::Plain));
    let all = others.with(CellId(2));
    let copy = plain(&rt, rt.alloc(), CellId(4));
    assert!(rt; accept(&table, &mut holder, all, &copy) == Accept::Copied(CopyCause::Plain));
}

/// One takes frame 3, and two is handed it on by a packet for as long as it is held; not by one of another generation.
fn remaps_while_held(
    rt: &impl Abort,
    table: &FrameTable,
    one: &mut Holder,
    two: &mut Holder,
    packet: &WirePacket,
    later: &WirePacket,
)
    requires made { IsMade table.now one.old × IsMade table.now two.old }
    requires frames { table.now.terms.frames ≡ 16 }
    requires packet { whole_of packet.now.body ≡ Some (record { frame = 3; generation = 1 }) }
    requires later { whole_of later.now.body ≡ Some (record { frame = 3; generation = 3 }) }
{
    let dead = CellSet::empty()
        .with(CellId(0))
        .with(CellId(1))
        .with(CellId(3));
    let Took::Took(1) = taken(table, one) else {
        panic!(rt; "the frame is free")
    };
    let Accept::Remapped = accepted(table, two, dead, packet) else {
        panic!(rt; "the frame is held")
    };
    give_back(table, one, FrameNo(3));
    assert!(rt; taken(table, one) == Took::Held(GENERATION + 1));
    give_back(table, two, FrameNo(3));
    let gone = Accept::Copied(CopyCause::Gone(GENERATION));
    assert!(rt; accepted(table, two, dead, packet) == gone);
    assert!(rt; taken(table, one) == Took::Took(2));
    let gone = Accept::Copied(CopyCause::Gone(2 * GENERATION + 1));
    assert!(rt; accepted(table, two, dead, packet) == gone);
    assert!(rt; accepted(table, two, dead, later) == gone);
}

#[test]
fn a_frame_is_remapped_while_somebody_holds_it(rt: HostRuntime) {
    let (table, mut one) = gave(&rt, FrameTable::new(rt.alloc(), 16, &[1], 0));
    let mut two = split(&table, &mut one, &FrameList::new(rt.alloc()), &[0]);
    let packet = whole(&rt, rt.alloc(), 1);
    let later = whole(&rt, rt.alloc(), 3);
    remaps_while_held(&rt, &table, &mut one, &mut two, &packet, &later);
}
