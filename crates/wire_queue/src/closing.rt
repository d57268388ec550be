//! How the wires end.
ghost use Rattle.std.specs.Prelude.{◌≡◌, ◌≢◌, ◌<◌, ℕ, None};
ghost use Rattle.std.specs.Option.{option_map};
ghost use Rattle.wire_queue.specs.QueueIds.{queue_id};
ghost use Rattle.wire_queue.specs.Between.{entry};
ghost use Rattle.wire_queue.specs.WireParts.{ids_of};
ghost use Rattle.wire_queue.specs.PassTables.{sends_of, takes_of, with_entry};
ghost use Rattle.wire_queue.specs.PassLists.{AreAllOf};
ghost use Rattle.wire_queue.specs.Closing.{IsInOrder, AreInOrder, HasEnds, HasPlaces};

use crate::lists::{AllPasses, PassList, take_out};
use crate::passes::settle;
use crate::wire::WireQueue;
use crate::wires::{Wires, wire_at};
use base_words::GuestId;

/// Brings the two ends of a wire together, if there is one.
fn settle_wire(
    rows: &[Vec<Option<WireQueue>>],
    lists: &mut Vec<PassList>,
    from: GuestId,
    to: GuestId,
    guests: u8,
)
    requires within { (from.0 < guests) × (to.0 < guests) }
    requires places { HasPlaces guests lists.old.items }
    requires send { option_map (λ p. p.wire.queue) (entry (sends_of lists.old.items) from.0 to.0) ≡ entry (ids_of rows.now) from.0 to.0 }
    requires take { option_map (λ p. p.wire.queue) (entry (takes_of lists.old.items) to.0 from.0) ≡ entry (ids_of rows.now) from.0 to.0 }
    ensures sends { sends_of lists.new.items ≡ sends_of lists.old.items }
    ensures takes { takes_of lists.new.items ≡ with_entry (takes_of lists.old.items) to.0 from.0 None }
    ensures first { IsInOrder (sends_of lists.old.items) (takes_of lists.old.items) from.0 to.0 }
{
    let _ = guests;
    let Some(taker) = take_out(lists, from, to) else {
        return;
    };
    let Some(wire) = wire_at(rows, from, to) else {
        return;
    };
    let sends = &mut lists[from.0 as usize].sends;
    let Some(sender) = &mut sends[to.0 as usize] else {
        return;
    };
    settle(wire, sender, taker);
}

/// Brings the two ends of each wire from a guest together.
fn settle_sender(
    rows: &[Vec<Option<WireQueue>>],
    lists: &mut Vec<PassList>,
    from: GuestId,
    guests: u8,
)
    requires within { from.0 < guests }
    requires places { HasPlaces guests lists.old.items }
    requires ends { HasEnds (ids_of rows.now) lists.old.items from.0 }
    ensures places { HasPlaces guests lists.new.items }
    ensures sends { sends_of lists.new.items ≡ sends_of lists.old.items }
    ensures others { (other to : ℕ) → other ≢ from.0 → entry (takes_of lists.new.items) to other ≡ entry (takes_of lists.old.items) to other }
    ensures first { (to : ℕ) → to < guests → IsInOrder (sends_of lists.old.items) (takes_of lists.old.items) from.0 to }
{
    for to in 0..guests {
        settle_wire(rows, lists, from, GuestId(to), guests);
    }
}

/// Brings the two ends of each wire together.
fn settle_all(rows: &[Vec<Option<WireQueue>>], lists: &mut Vec<PassList>, guests: u8)
    requires places { HasPlaces guests lists.old.items }
    requires ends { (from : ℕ) → HasEnds (ids_of rows.now) lists.old.items from }
    ensures { (from to : ℕ) → from < guests → to < guests → IsInOrder (sends_of lists.old.items) (takes_of lists.old.items) from to }
{
    for from in 0..guests {
        settle_sender(rows, lists, GuestId(from), guests);
    }
}

impl Wires {
    /// Ends all wires, with all their passes. What is on a wire is dropped.
    pub fn close(self, passes: AllPasses)
        requires { AreAllOf self passes }
        ensures { AreInOrder passes }
    {
        let Wires {
            rows,
            guests,
            terms: _,
        } = self;
        let mut lists = passes.into_vec();
        settle_all(rows.as_slice(), &mut lists, guests);
    }
}
