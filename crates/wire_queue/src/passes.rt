//! The two ends of a wire, each with what went through it.
ghost use Rattle.std.specs.Prelude.{◌≡◌, ◌++◌, List, length};
ghost use Rattle.wire_queue.specs.QueueIds.{queue_id};
ghost use Rattle.wire_queue.specs.Packets.{Packet};
ghost use Rattle.wire_queue.specs.Steps.{AreFirstOf};

use crate::rule::Seat;
use crate::wire::WireQueue;
use base_words::GuestId;
use std::marker::Model;
use std::mem;
use std::sync::Wait;

/// The sender's end of a wire.
#[derive(Drop)]
pub struct SendPass {
    pub(crate) seat: Seat,
    pub(crate) from: GuestId,
    pub(crate) to: GuestId,
}

impl Model for SendPass {
    ghost use Rattle.wire_queue.specs.Ends.{Sending};

    ghost Value = { Sending };

    ghost use Rattle.wire_queue.specs.EndParts.{sending_of, IsSending};

    ghost view = { sending_of };

    ghost invariant = { IsSending };
}

/// The receiver's end of a wire.
#[derive(Drop)]
pub struct TakePass {
    pub(crate) seat: Seat,
    pub(crate) from: GuestId,
    pub(crate) to: GuestId,
}

impl Model for TakePass {
    ghost use Rattle.wire_queue.specs.Ends.{Taking};

    ghost Value = { Taking };

    ghost use Rattle.wire_queue.specs.EndParts.{taking_of, IsTaking};

    ghost view = { taking_of };

    ghost invariant = { IsTaking };
}

/// How many packets a wire holds. Both ends stay as they are.
pub fn count<R: Wait>(rt: &R, wire: &WireQueue, from: &mut SendPass, to: &mut TakePass) -> usize
    requires of { from.old.wire.queue ≡ queue_id wire.now.queue }
    requires ends { to.old.wire ≡ from.old.wire }
    ensures held { (held : List Packet) × (length held ≡ result) × (from.old.accepted ≡ to.old.taken ++ held) }
    ensures same { (from.new ≡ from.old) × (to.new ≡ to.old) }
{
    let spare = wire.spare(&mut from.seat);
    let taker = mem::replace(&mut to.seat, spare);
    wire.join(&mut from.seat, taker);
    let held = wire.count(rt, &mut from.seat);
    to.seat = wire.split(&mut from.seat);
    held
}

/// Brings the two ends of a wire together. The sender's end stays as it is.
pub fn settle(wire: &WireQueue, from: &mut SendPass, to: TakePass)
    requires sender { from.old.wire.queue ≡ queue_id wire.now.queue }
    requires taker { to.wire.queue ≡ queue_id wire.now.queue }
    ensures same { from.new ≡ from.old }
    ensures first { AreFirstOf to.taken from.old.accepted }
{
    let TakePass {
        seat,
        from: _,
        to: _,
    } = to;
    wire.join(&mut from.seat, seat);
    wire.compare(&mut from.seat);
}
