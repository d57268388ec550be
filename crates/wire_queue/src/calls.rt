//! What a guest does with its passes.
ghost use Rattle.std.specs.Prelude.{IsSome};
ghost use Rattle.wire_queue.specs.Packets.{packet_of};
ghost use Rattle.wire_queue.specs.Lines.{Fits};
ghost use Rattle.wire_queue.specs.Between.{line_between};
ghost use Rattle.wire_queue.specs.PassLists.{IsListOf, sending_to, taking_from};
ghost use Rattle.wire_queue.specs.ListSteps.{SendsTo, TakesFrom, HasTaken, SameEnds};

use crate::lists::PassList;
use crate::packet::WirePacket;
use crate::wires::{Sent, Wires};
use base_words::GuestId;
use std::sync::Wait;

impl PassList {
    /// Puts a packet on the wire to another guest. It takes no memory, and may wait for the queue.
    pub fn send<R: Wait>(&mut self, rt: &R, wires: &Wires, to: GuestId, packet: WirePacket) -> Sent
        requires of { IsListOf wires.now self.old }
        requires there { IsSome (sending_to self.old to.0) }
        requires fits { Fits (line_between wires.now self.old.guest.0 to.0) (packet_of packet) }
        ensures sent { SendsTo self.old to.0 packet result self.new }
        ensures of { IsListOf wires.now self.new }
    {
        let sends = &mut self.sends;
        let Some(pass) = &mut sends[to.0 as usize] else {
            unreachable!()
        };
        wires.send(rt, pass, packet)
    }

    /// Takes the next packet from the wire from another guest; `None` where the wire was empty at one moment of this call. It
    /// takes no memory, and may wait for the queue.
    pub fn receive<R: Wait>(&mut self, rt: &R, wires: &Wires, from: GuestId) -> Option<WirePacket>
        requires of { IsListOf wires.now self.old }
        requires there { IsSome (taking_from self.old from.0) }
        ensures taken { TakesFrom self.old from.0 result self.new }
        ensures of { IsListOf wires.now self.new }
    {
        let takes = &mut self.takes;
        let Some(pass) = &mut takes[from.0 as usize] else {
            unreachable!()
        };
        let packet = wires.receive(rt, pass);
        let asks = &mut self.asks;
        asks[from.0 as usize] = asks[from.0 as usize].saturating_add(1);
        packet
    }

    /// Whether this guest has taken all that the wire from another guest accepted. All passes stay as they are. It takes no
    /// memory, and may wait for the queue.
    pub fn has_taken<R: Wait>(&mut self, rt: &R, wires: &Wires, sender: &mut PassList) -> bool
        requires of { IsListOf wires.now self.old × IsListOf wires.now sender.old }
        requires there { IsSome (taking_from self.old sender.old.guest.0) }
        ensures answer { HasTaken self.old sender.old result }
        ensures same { SameEnds self.old self.new × SameEnds sender.old sender.new }
        ensures of { IsListOf wires.now self.new × IsListOf wires.now sender.new }
    {
        let sends = &mut sender.sends;
        let Some(from) = &mut sends[self.guest.0 as usize] else {
            unreachable!()
        };
        let takes = &mut self.takes;
        let Some(to) = &mut takes[sender.guest.0 as usize] else {
            unreachable!()
        };
        wires.empty(rt, from, to)
    }
}
