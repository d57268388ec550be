//! Packets that come to a guest: one comes to hand, and is copied into the page that is armed, once that may change.
ghost use Rattle.std.specs.Prelude.{◌≡◌, ◌≢◌, ◌<◌, ◌≤◌, ◌+◌, ℕ, IfOk, OnOk, OnErr, Some, None, length, map, option_map, true};
ghost use Rattle.std.specs.Vec.{vec_len, vec_capacity};
ghost use Rattle.base_words.specs.declared.ids.Ppn.{Ppn};
ghost use Rattle.base_words.specs.declared.moves.By.TheVariants.{Packet};
ghost use Rattle.private_machine.specs.Backing.{page_at, with_first};
ghost use Rattle.private_machine.specs.DeviceRegisters.{packet_noted};
ghost use Rattle.private_machine.specs.Links.{unlinked_page};
ghost use Rattle.private_machine.specs.Signals.{changed};
ghost use Rattle.private_machine.specs.Vcpu.{with_line_on};
ghost use Rattle.pmap_table.specs.PageMap.{with_page};
ghost use Rattle.guest_devs.specs.Shown.{Agree};
ghost use Rattle.isolation_law.specs.MoveRows.{Begins};
ghost use Rattle.isolation_law.specs.PacketRows.{ComesToHand, Receives};
ghost use Rattle.isolation_law.specs.Phases.{GoesOn};
ghost use Rattle.wire_queue.specs.Packets.{packet_of};
ghost use Rattle.guest_course.specs.CourseView.{surroundings, state_of, hand_of, got_of};
ghost use Rattle.guest_course.specs.CourseRules.{FitsHand, IsSound, IsWritable};
ghost use Rattle.guest_course.specs.EmulateCalls.{StaysLoaded};
ghost use Rattle.guest_course.specs.Hurdles.{NeedsMove};
ghost use Rattle.guest_course.specs.Packets.{SamePackets};
ghost use Rattle.guest_course.specs.ReceivingCalls.{HandLives, MayDeliver, UsesPlace};

use crate::course::Course;
use crate::got::GotPacket;
use base_words::{Bytes, MoveKind, Ppn};
use isolation_law::row_keeps;
use private_machine::unlink_page;
use std::alloc::{AllocError, Global};
use wire_queue::WirePacket;

/// What a guest keeps of a packet.
pub(crate) fn got(alloc: Global, packet: &WirePacket) -> Result<GotPacket, AllocError>
    requires { packet.now.length ≤ 4096 }
    ensures { IfOk result (λ kept. got_of kept ≡ hand_of packet.now) }
{
    let bytes = &packet.page().bytes()[..packet.length as usize];
    Ok(GotPacket {
        from: packet.from,
        cell: packet.cell,
        bytes: Bytes::from_vec(Vec::from_slice(alloc, bytes)?),
    })
}

impl Course {
    /// The page that is armed for a packet.
    #[inline]
    pub fn armed(&self) -> Option<Ppn>
        ensures { option_map (λ (page : Ppn). page.0) result ≡ (state_of self.now).devices.armed }
    {
        self.devs.armed()
    }

    /// Takes a packet in hand, which goes without an entry.
    pub fn take_in_hand(&mut self, packet: WirePacket)
        requires sound { IsSound self.old }
        requires goes_on { GoesOn (state_of self.old) }
        requires free { self.old.hand ≡ None }
        requires armed { (state_of self.old).devices.armed ≢ None }
        requires some { 1 ≤ packet.length }
        requires fits { FitsHand (surroundings self.old.around) (packet_of packet) }
        requires whole { length (hand_of packet).bytes ≡ packet.length }
        ensures sound { IsSound self.new }
        ensures comes { ComesToHand (state_of self.old) (state_of self.new) }
        ensures same { self.new ≡ record self.old { hand = Some packet } }
    {
        row_keeps();
        self.hand = Some(packet);
    }

    /// Nobody links a line of a page any more into which a packet comes, and the devices note the packet.
    pub(crate) fn note_packet(&mut self, page: Ppn, packet: &GotPacket)
        requires some_vcpus { 0 < length self.old.vcpus.items }
        requires transfers { length self.old.vcpus.items ≡ length self.old.devs.state.page.transfers }
        requires agree { Agree self.old.devs.state self.old.vcpus.items }
        requires armed { self.old.devs.state.page.armed ≢ None }
        requires few { length packet.now.bytes ≤ 4096 }
        ensures same { self.new ≡ record self.old { vcpus = self.new.vcpus; devs = self.new.devs } }
        ensures vcpus { self.new.vcpus.items ≡ changed 0 (with_line_on 3 true) (map (unlinked_page page.0) self.old.vcpus.items) }
        ensures devs { self.new.devs.state ≡ record self.old.devs.state { page = packet_noted packet.now.from.0 (length packet.now.bytes) self.old.devs.state.page; packet = true } }
        ensures agree { Agree self.new.devs.state self.new.vcpus.items }
        ensures print_room { self.new.devs.print_room ≡ self.old.devs.print_room }
        ensures send_room { self.new.devs.send_room ≡ self.old.devs.send_room }
    {
        unlink_page(&mut self.vcpus, page);
        self.devs.packet_by(
            &mut self.vcpus,
            packet.from,
            packet.bytes.as_slice().len() as u32,
        );
    }

    /// A packet's bytes come into a page, nobody links a line of the page any more, and the devices note the packet.
    fn deliver(&mut self, page: Ppn, packet: &GotPacket)
        requires may { MayDeliver self.old page.0 packet.now }
        ensures same { self.new ≡ record self.old { vcpus = self.new.vcpus; devs = self.new.devs; pmap = self.new.pmap } }
        ensures vcpus { self.new.vcpus.items ≡ changed 0 (with_line_on 3 true) (map (unlinked_page page.0) self.old.vcpus.items) }
        ensures devs { self.new.devs.state ≡ record self.old.devs.state { page = packet_noted packet.now.from.0 (length packet.now.bytes) self.old.devs.state.page; packet = true } }
        ensures pages { self.new.pmap ≡ with_page self.old.pmap page.0 (with_first packet.now.bytes (page_at self.old.pmap.pages page.0)) }
        ensures agree { Agree self.new.devs.state self.new.vcpus.items }
        ensures print_room { self.new.devs.print_room ≡ self.old.devs.print_room }
        ensures send_room { self.new.devs.send_room ≡ self.old.devs.send_room }
    {
        self.pmap.copy_bytes_in(page, packet.bytes.as_slice());
        self.note_packet(page, packet);
    }

    /// Begins the move that the packet in hand needs of the page that is armed for it. A break takes a spare.
    pub fn begin_for_packet(&mut self, page: Ppn, kind: MoveKind)
        requires sound { IsSound self.old }
        requires goes_on { GoesOn (state_of self.old) }
        requires in_hand { self.old.hand ≢ None }
        requires armed { (state_of self.old).devices.armed ≡ Some page.0 }
        requires lives { HandLives (state_of self.old) }
        requires needs { NeedsMove (state_of self.old) page.0 kind }
        requires room { 0 < self.old.pmap.room }
        ensures sound { IsSound self.new }
        ensures begins { Begins (state_of self.old) page.0 kind (state_of self.old).around.home Packet (state_of self.new) }
        ensures goes_on { GoesOn (state_of self.new) }
        ensures print_room { self.new.devs.print_room ≡ self.old.devs.print_room }
        ensures send_room { self.new.devs.send_room ≡ self.old.devs.send_room }
        ensures room { self.old.pmap.room ≤ self.new.pmap.room + 1 }
        ensures cells { self.new.sent_from ≡ self.old.sent_from }
        ensures skips { self.new.skips ≡ self.old.skips }
        ensures packets { SamePackets self.old self.new }
    {
        self.begin_asked(page, kind);
    }

    /// Copies the packet in hand into the page that is armed, whose bytes may change. For want of memory nothing has changed.
    pub fn receive(&mut self, alloc: Global) -> Result<(), AllocError>
        requires sound { IsSound self.old }
        requires goes_on { GoesOn (state_of self.old) }
        requires in_hand { self.old.hand ≢ None }
        requires lives { HandLives (state_of self.old) }
        requires armed { (state_of self.old).devices.armed ≢ None }
        requires writable { (q : ℕ) → (state_of self.old).devices.armed ≡ Some q → IsWritable (page_at self.old.pmap.pages q) }
        requires place { vec_len self.old.received < vec_capacity self.old.received }
        ensures sound { IsSound self.new }
        ensures room { self.new.pmap.room ≡ self.old.pmap.room }
        ensures receives { OnOk result (Receives (state_of self.old) (length self.old.received.items) (state_of self.new)) }
        ensures unchanged { OnErr result (self.new ≡ self.old) }
        ensures goes_on { GoesOn (state_of self.new) }
        ensures free { OnOk result (self.new.hand ≡ None) }
        ensures stays { StaysLoaded (state_of self.old) (state_of self.new) }
        ensures print_room { self.new.devs.print_room ≡ self.old.devs.print_room }
        ensures send_room { self.new.devs.send_room ≡ self.old.devs.send_room }
        ensures cells { self.new.sent_from ≡ self.old.sent_from }
        ensures skips { self.new.skips ≡ self.old.skips }
        ensures place_room { UsesPlace self.old.received self.new.received }
        ensures discarded { self.new.discarded ≡ self.old.discarded }
    {
        row_keeps();
        let Some(page) = self.devs.armed() else {
            unreachable!();
        };
        let Some(packet) = &self.hand else {
            unreachable!();
        };
        let packet = got(alloc, packet)?;
        self.deliver(page, &packet);
        self.hand = None;
        self.received.push_reserved(packet);
        Ok(())
    }
}
