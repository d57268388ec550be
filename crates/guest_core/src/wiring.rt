//! A guest's ends of its wires.
ghost use Rattle.std.specs.Prelude.{◌≡◌, ◌<◌, ◌≤◌, IfSome, IfNone, IsSome};
ghost use Rattle.wire_queue.specs.Between.{guest_count, line_between};
ghost use Rattle.wire_queue.specs.Lines.{Fits};
ghost use Rattle.wire_queue.specs.ListSteps.{AsksInVain, HasTaken, SameEnds};
ghost use Rattle.wire_queue.specs.Packets.{packet_of};
ghost use Rattle.wire_queue.specs.PassLists.{IsListOf, JoinsAll, sending_to, taking_from};
ghost use Rattle.guest_core.specs.Wiring.{SentOn, TakesNext, TakenOn, is_other_in};

use base_words::GuestId;
use guest_course::Outgoing;
use std::snapshot::Snapshot;
use std::sync::Wait;
use wire_queue::{PassList, WirePacket, Wires};

/// A guest's ends of its wires, and the sender from which it took the last packet. The wires themselves stand here for contracts
/// alone.
#[derive(Drop)]
pub(crate) struct Wiring {
    pub(crate) passes: PassList,
    pub(crate) last: GuestId,
    pub(crate) wires: Snapshot<Wires>,
}

impl Wiring {
    /// Nothing was taken yet.
    pub(crate) fn of(wires: &Wires, passes: PassList) -> Self
        ensures passes { result.passes ≡ passes }
        ensures wires { result.wires.value ≡ wires.now }
    {
        Wiring {
            last: passes.guest,
            wires: Snapshot::of(wires),
            passes,
        }
    }

    /// Puts what goes out on its wire. A wire that is full loses it.
    pub(crate) fn post<R: Wait>(&mut self, rt: &R, wires: &Wires, out: Option<Outgoing>)
        requires list { IsListOf wires.now self.old.passes }
        requires there { IfSome out (λ o. IsSome (sending_to self.old.passes o.to.0)) }
        requires fits { IfSome out (λ o. Fits (line_between wires.now self.old.passes.guest.0 o.to.0) (packet_of o.packet)) }
        ensures list { IsListOf wires.now self.new.passes }
        ensures sent { SentOn self.old.passes out self.new.passes }
        ensures wires { self.new.wires ≡ self.old.wires }
    {
        if let Some(out) = out {
            self.passes.send(rt, wires, out.to, out.packet);
        }
    }

    /// Whether all was taken that the wire from another guest accepted. Both guests' ends stay as they are.
    pub(crate) fn has_taken<R: Wait>(&mut self, rt: &R, wires: &Wires, from: &mut Wiring) -> bool
        requires lists { IsListOf wires.now self.old.passes × IsListOf wires.now from.old.passes }
        requires there { IsSome (taking_from self.old.passes from.old.passes.guest.0) }
        ensures answer { HasTaken self.old.passes from.old.passes result }
        ensures same { SameEnds self.old.passes self.new.passes × SameEnds from.old.passes from.new.passes }
        ensures lists { IsListOf wires.now self.new.passes × IsListOf wires.now from.new.passes }
        ensures wires { (self.new.wires ≡ self.old.wires) × (from.new.wires ≡ from.old.wires) }
    {
        self.passes.has_taken(rt, wires, &mut from.passes)
    }

    /// Asks the wires from the other guests of these numbers, in order, until one gives a packet.
    fn ask<R: Wait>(
        &mut self,
        rt: &R,
        wires: &Wires,
        first: usize,
        end: usize,
    ) -> Option<WirePacket>
        requires list { IsListOf wires.now self.old.passes }
        requires joins { JoinsAll wires.now }
        requires few { guest_count wires.now ≤ 8 }
        requires is_guest { self.old.passes.guest.0 < guest_count wires.now }
        requires within { (first ≤ end) × (end ≤ guest_count wires.now) }
        ensures list { IsListOf wires.now self.new.passes }
        ensures none { IfNone result (AsksInVain self.old.passes self.new.passes (is_other_in self.old.passes.guest.0 first end)) }
        ensures some { IfSome result (λ packet. TakesNext self.old.passes packet self.new.passes) }
        ensures wires { self.new.wires ≡ self.old.wires }
    {
        for from in first..end {
            let from = GuestId(from as u8);
            if from == self.passes.guest {
                continue;
            }
            if let Some(packet) = self.passes.receive(rt, wires, from) {
                self.last = from;
                return Some(packet);
            }
        }
        None
    }

    /// Asks the wires in order of sender, beginning after the one from which the last packet came, until one gives a packet.
    pub(crate) fn next<R: Wait>(&mut self, rt: &R, wires: &Wires) -> Option<WirePacket>
        requires list { IsListOf wires.now self.old.passes }
        requires joins { JoinsAll wires.now }
        requires few { guest_count wires.now ≤ 8 }
        requires is_guest { self.old.passes.guest.0 < guest_count wires.now }
        ensures list { IsListOf wires.now self.new.passes }
        ensures taken { TakenOn self.old.passes result self.new.passes }
        ensures wires { self.new.wires ≡ self.old.wires }
    {
        let guests = self.passes.takes.len();
        let start = guests.min(self.last.0 as usize + 1);
        if let Some(packet) = self.ask(rt, wires, start, guests) {
            return Some(packet);
        }
        self.ask(rt, wires, 0, start)
    }
}
