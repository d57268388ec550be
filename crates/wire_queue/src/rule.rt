//! The rule of a wire, and what each step tells.
use crate::log::Log;
use crate::packet::WirePacket;
use crossbeam_queue::protocol::{Join, Lesson, Outcome, Protocol, Split};
use crossbeam_queue::{Pass, RuledArrayQueue};
use std::marker::{Brand, PhantomData};

/// What was accepted is what was taken and then what the queue holds, in order.
pub struct InOrder;

impl Protocol<WirePacket, Log> for InOrder {
    ghost use Rattle.wire_queue.specs.Logs.{nothing_known};
    ghost use Rattle.wire_queue.specs.WireRule.{Ordered};

    ghost holds = { Ordered };

    ghost first = { nothing_known };
}

/// Names a wire's ends and its terms.
pub trait Ends {
    ghost use Rattle.wire_queue.specs.Lines.{Line, no_line};

    ghost line: { Line };
}

impl Ends for Brand {
    ghost use Rattle.wire_queue.specs.Lines.{Line, no_line};

    ghost line = { no_line };
}

/// The two ends of a new wire.
pub struct Opens<W: Ends> {
    of: PhantomData<W>,
}

impl<W: Ends> Split<Log> for Opens<W> {
    ghost use Rattle.wire_queue.specs.Logs.{sender_log, taker_log};
    ghost use Rattle.std.specs.Prelude.{[]};

    ghost left = { λ _. sender_log W.line [] };

    ghost right = { λ _. taker_log W.line [] };
}

/// The two ends of a wire apart, and together.
pub struct BothEnds;

impl Split<Log> for BothEnds {
    ghost use Rattle.wire_queue.specs.Logs.{sender_log, taker_log};

    ghost left = { λ v. sender_log v.line v.accepted };

    ghost right = { λ v. taker_log v.line v.taken };
}

impl Join<Log> for BothEnds {
    ghost use Rattle.wire_queue.specs.Logs.{joined_log, spent_log};

    ghost both = { joined_log };

    ghost spent = { spent_log };
}

/// A pass that is neither end.
pub struct Spares;

impl Split<Log> for Spares {
    ghost use Rattle.wire_queue.specs.Logs.{spent_log};

    ghost left = { λ v. v };

    ghost right = { λ _. spent_log };
}

/// A packet is accepted; where it isn't, the queue was full.
pub struct Accepts;

impl Outcome<WirePacket, Log> for Accepts {
    ghost use Rattle.std.specs.Prelude.{◌≡◌, ◌++◌, ◌∷◌, []};
    ghost use Rattle.wire_queue.specs.Packets.{packet_of};

    ghost then = { λ v x w. w ≡ record v { accepted = v.accepted ++ packet_of x ∷ [] } };
}

impl Lesson<WirePacket, Log> for Accepts {
    ghost use Rattle.std.specs.Prelude.{◌≤◌, length};

    ghost fact = { λ v items. length items ≤ length v.accepted };
}

/// A packet is taken, which keeps to the wire's terms.
pub struct Takes;

impl Outcome<WirePacket, Log> for Takes {
    ghost use Rattle.std.specs.Prelude.{◌≡◌, ◌++◌, ◌∷◌, []};
    ghost use Rattle.wire_queue.specs.Packets.{packet_of};
    ghost use Rattle.wire_queue.specs.Lines.{Fits};

    ghost then = { λ v x w. (w ≡ record v { taken = v.taken ++ packet_of x ∷ [] }) × Fits v.line (packet_of x) };
}

impl Lesson<WirePacket, Log> for Takes {
    ghost use Rattle.std.specs.Prelude.{⊤};

    ghost fact = { λ v items. ⊤ };
}

/// What was accepted is what was taken and what the queue holds.
pub struct Compares;

impl Lesson<WirePacket, Log> for Compares {
    ghost use Rattle.std.specs.Prelude.{◌≡◌, ◌++◌, map};
    ghost use Rattle.wire_queue.specs.Packets.{packet_of};

    ghost fact = { λ v items. v.accepted ≡ v.taken ++ map packet_of items };
}

/// A queue of packets.
pub type Queue = RuledArrayQueue<WirePacket, Log, InOrder>;

/// One who knows of a queue.
pub type Seat = Pass<WirePacket, Log>;
