//! All wires, and what guests do with them.
ghost use Rattle.std.specs.Prelude.{◌≡◌, ◌↔◌, IsTrue};
ghost use Rattle.std.specs.Option.{option_map};
ghost use Rattle.wire_queue.specs.QueueIds.{queue_id};
ghost use Rattle.wire_queue.specs.Packets.{packet_of};
ghost use Rattle.wire_queue.specs.Lines.{Fits};
ghost use Rattle.wire_queue.specs.Between.{entry, IsOf};
ghost use Rattle.wire_queue.specs.WireParts.{ids_of};
ghost use Rattle.wire_queue.specs.Steps.{SentBy, TakenBy, AreFirstOf};

use crate::packet::WirePacket;
use crate::passes::{SendPass, TakePass, count};
use crate::terms::Terms;
use crate::wire::WireQueue;
use base_words::GuestId;
use std::marker::Model;
use std::sync::Wait;

/// What became of a packet.
#[derive(Drop)]
pub enum Sent {
    /// It was accepted.
    Ok,
    /// The wire was full. The packet comes back.
    Full(WirePacket),
}

/// The wires between guests: one for each ordered pair of them. Threads share them by `&`.
#[derive(Drop)]
pub struct Wires {
    pub(crate) guests: u8,
    pub(crate) rows: Vec<Vec<Option<WireQueue>>>,
    pub(crate) terms: Terms,
}

impl Model for Wires {
    ghost use Rattle.wire_queue.specs.Between.{Made};

    ghost Value = { Made };

    ghost use Rattle.wire_queue.specs.WireParts.{made_of, IsCounted};

    ghost view = { made_of };

    ghost invariant = { IsCounted };
}

/// The wire from one guest to another, if there is one.
pub fn wire_at(rows: &[Vec<Option<WireQueue>>], from: GuestId, to: GuestId) -> Option<&WireQueue>
    ensures { option_map (λ wire. queue_id wire.now.queue) result ≡ entry (ids_of rows.now) from.0 to.0 }
{
    match rows.get(from.0 as usize)?.get(to.0 as usize) {
        Some(Some(wire)) => Some(wire),
        _ => None,
    }
}

impl Wires {
    /// Puts a packet on a wire, by its sender's end. It takes no memory, and may wait for the queue.
    pub fn send<R: Wait>(&self, rt: &R, pass: &mut SendPass, packet: WirePacket) -> Sent
        requires of { IsOf self.now pass.old.wire }
        requires fits { Fits pass.old.wire.line (packet_of packet) }
        ensures answer { SentBy pass.old packet result pass.new }
    {
        let Some(wire) = wire_at(self.rows.as_slice(), pass.from, pass.to) else {
            unreachable!()
        };
        match wire.put(rt, &mut pass.seat, packet) {
            Ok(()) => Sent::Ok,
            Err(packet) => Sent::Full(packet),
        }
    }

    /// Takes the next packet from a wire, by its receiver's end; `None` where the wire was empty at one moment of this call. It
    /// takes no memory, and may wait for the queue.
    pub fn receive<R: Wait>(&self, rt: &R, pass: &mut TakePass) -> Option<WirePacket>
        requires { IsOf self.now pass.old.wire }
        ensures { TakenBy pass.old result pass.new }
    {
        let Some(wire) = wire_at(self.rows.as_slice(), pass.from, pass.to) else {
            unreachable!()
        };
        let packet = wire.get(rt, &mut pass.seat)?;
        let _whole = packet.page();
        Some(packet)
    }

    /// Whether all that a wire accepted was taken, by its two ends, which stay as they are. It takes no memory, and may wait for
    /// the queue.
    pub fn empty<R: Wait>(&self, rt: &R, from: &mut SendPass, to: &mut TakePass) -> bool
        requires of { IsOf self.now from.old.wire }
        requires ends { to.old.wire ≡ from.old.wire }
        ensures all { IsTrue result ↔ (to.old.taken ≡ from.old.accepted) }
        ensures first { AreFirstOf to.old.taken from.old.accepted }
        ensures same { (from.new ≡ from.old) × (to.new ≡ to.old) }
    {
        let Some(wire) = wire_at(self.rows.as_slice(), from.from, from.to) else {
            unreachable!()
        };
        count(rt, wire, from, to) == 0
    }
}
