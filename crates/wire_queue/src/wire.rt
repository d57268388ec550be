//! One wire: its queue of 64 packets, and the steps at its two ends.
ghost use Rattle.std.specs.Prelude.{◌≡◌, ◌≤◌, ◌++◌, ◌∷◌, [], List, true, map, length, IfErr, IfOk, IfNone, IfSome, OnOk};
ghost use Rattle.crossbeam_queue.specs.Passes.{view, IsPassOf, IsSamePass, ruled_capacity};
ghost use Rattle.wire_queue.specs.Packets.{Packet, packet_of};
ghost use Rattle.wire_queue.specs.Lines.{Fits, line_of};
ghost use Rattle.wire_queue.specs.Logs.{sender_log, taker_log, joined_log, spent_log};

use crate::packet::WirePacket;
use crate::rule::{Accepts, BothEnds, Compares, Ends, Opens, Queue, Seat, Spares, Takes};
use base_words::{CellList, GuestId, Shape};
use std::alloc::{AllocError, Global};
use std::marker::Brand;
use std::sync::Wait;

/// How many packets a wire holds at most.
const PACKETS: usize = 64;

/// The queue of a wire.
#[derive(Drop)]
pub struct WireQueue {
    queue: Queue,
    ghost sized: { ruled_capacity queue ≡ 64 },
}

/// Makes the two passes of a new queue the two ends of a wire, which are named.
fn open_as<W: Ends>(
    queue: &Queue,
    seat: &mut Seat,
    from: GuestId,
    to: GuestId,
    shape: &Shape,
    homes: &CellList,
) -> Seat
    requires pass { IsPassOf queue.now seat.old }
    requires both { ((view seat.old).sends ≡ true) × ((view seat.old).takes ≡ true) }
    requires nothing { (view seat.old).accepted ≡ [] }
    requires named { W.line ≡ line_of from.0 to.0 shape.now homes.now }
    ensures pass { IsSamePass seat.old seat.new × IsPassOf queue.now result }
    ensures sender { view seat.new ≡ sender_log (line_of from.0 to.0 shape.now homes.now) [] }
    ensures taker { view result ≡ taker_log (line_of from.0 to.0 shape.now homes.now) [] }
{
    let _ = from;
    let _ = to;
    let _ = shape;
    let _ = homes;
    queue.another::<Opens<W>>(seat)
}

impl WireQueue {
    /// A wire with nothing on it, and its two ends.
    pub fn open(
        alloc: Global,
        from: GuestId,
        to: GuestId,
        shape: &Shape,
        homes: &CellList,
    ) -> Result<(WireQueue, Seat, Seat), AllocError>
        ensures passes { IfOk result (λ made. IsPassOf made.0.queue made.1 × IsPassOf made.0.queue made.2) }
        ensures sender { IfOk result (λ made. view made.1 ≡ sender_log (line_of from.0 to.0 shape.now homes.now) []) }
        ensures taker { IfOk result (λ made. view made.2 ≡ taker_log (line_of from.0 to.0 shape.now homes.now) []) }
    {
        let (queue, mut sender) = Queue::ruled(alloc, PACKETS)?;
        let taker = open_as::<Brand>(&queue, &mut sender, from, to, shape, homes);
        Ok((WireQueue { queue }, sender, taker))
    }

    /// Puts a packet on the wire, unless the queue is full.
    pub fn put<R: Wait>(
        &self,
        rt: &R,
        sender: &mut Seat,
        packet: WirePacket,
    ) -> Result<(), WirePacket>
        requires pass { IsPassOf self.now.queue sender.old }
        requires sends { (view sender.old).sends ≡ true }
        requires fits { Fits (view sender.old).line (packet_of packet) }
        ensures pass { IsSamePass sender.old sender.new }
        ensures ok { OnOk result (view sender.new ≡ record (view sender.old) { accepted = (view sender.old).accepted ++ packet_of packet ∷ [] }) }
        ensures full { IfErr result (λ back. (back ≡ packet) × (view sender.new ≡ view sender.old) × (64 ≤ length (view sender.old).accepted)) }
    {
        self.queue.push_as::<Accepts, R>(rt, sender, packet)
    }

    /// Takes a packet from the wire, if there is one.
    pub fn get<R: Wait>(&self, rt: &R, taker: &mut Seat) -> Option<WirePacket>
        requires pass { IsPassOf self.now.queue taker.old }
        requires takes { (view taker.old).takes ≡ true }
        ensures pass { IsSamePass taker.old taker.new }
        ensures some { IfSome result (λ p. (view taker.new ≡ record (view taker.old) { taken = (view taker.old).taken ++ packet_of p ∷ [] }) × Fits (view taker.old).line (packet_of p)) }
        ensures none { IfNone result (view taker.new ≡ view taker.old) }
    {
        self.queue.pop_as::<Takes, R>(rt, taker)
    }

    /// Brings both ends together.
    pub fn join(&self, sender: &mut Seat, taker: Seat)
        requires passes { IsPassOf self.now.queue sender.old × IsPassOf self.now.queue taker }
        requires ends { ((view sender.old).sends ≡ true) × ((view taker).takes ≡ true) }
        ensures pass { IsSamePass sender.old sender.new }
        ensures both { view sender.new ≡ joined_log (view sender.old) (view taker) }
    {
        self.queue.absorb::<BothEnds>(sender, taker);
    }

    /// Takes both ends apart again.
    pub fn split(&self, both: &mut Seat) -> Seat
        requires pass { IsPassOf self.now.queue both.old }
        requires ends { ((view both.old).sends ≡ true) × ((view both.old).takes ≡ true) }
        ensures pass { IsSamePass both.old both.new × IsPassOf self.now.queue result }
        ensures sender { view both.new ≡ sender_log (view both.old).line (view both.old).accepted }
        ensures taker { view result ≡ taker_log (view both.old).line (view both.old).taken }
    {
        self.queue.another::<BothEnds>(both)
    }

    /// A pass that is neither end.
    pub fn spare(&self, seat: &mut Seat) -> Seat
        requires pass { IsPassOf self.now.queue seat.old }
        ensures pass { IsSamePass seat.old seat.new × IsPassOf self.now.queue result }
        ensures same { view seat.new ≡ view seat.old }
        ensures spent { view result ≡ spent_log }
    {
        self.queue.another::<Spares>(seat)
    }

    /// How many packets the wire holds, by both ends.
    pub fn count<R: Wait>(&self, rt: &R, both: &mut Seat) -> usize
        requires pass { IsPassOf self.now.queue both.old }
        requires ends { ((view both.old).sends ≡ true) × ((view both.old).takes ≡ true) }
        ensures same { IsSamePass both.old both.new × (view both.new ≡ view both.old) }
        ensures held { (held : List Packet) × (length held ≡ result) × ((view both.old).accepted ≡ (view both.old).taken ++ held) }
    {
        self.queue.len_as::<Compares, R>(rt, both)
    }

    /// What was taken is the first of what was accepted, by both ends.
    pub fn compare(&self, both: &mut Seat)
        requires pass { IsPassOf self.now.queue both.old }
        requires ends { ((view both.old).sends ≡ true) × ((view both.old).takes ≡ true) }
        ensures same { IsSamePass both.old both.new × (view both.new ≡ view both.old) }
        ensures held { (held : List Packet) × ((view both.old).accepted ≡ (view both.old).taken ++ held) }
    {
        self.queue.learn_as::<Compares>(both);
    }
}
