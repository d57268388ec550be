//! Each guest's passes.
ghost use Rattle.std.specs.Prelude.{◌≡◌, ◌<◌, [], length, slice_index_or, Some, None};
ghost use Rattle.wire_queue.specs.Between.{entry};
ghost use Rattle.wire_queue.specs.PassTables.{sends_of, takes_of, guests_of, asks_kept, with_entry};

use crate::passes::{SendPass, TakePass};
use base_words::{GuestId, Sequence};

/// One guest's passes: its end of the wire to each other guest, and of the wire from each other guest. Both stand at the other
/// guest's number, and none at its own. And how often it asked the wire from each guest for a packet, as far as a count goes.
#[derive(Drop)]
pub struct PassList {
    pub guest: GuestId,
    pub sends: Vec<Option<SendPass>>,
    pub takes: Vec<Option<TakePass>>,
    pub asks: Vec<u64>,
}

/// The passes of all guests, by their number.
pub type AllPasses = Sequence<PassList>;

/// Puts the sender's end of a wire into its list.
pub fn put_send(lists: &mut Vec<PassList>, from: GuestId, to: GuestId, pass: SendPass)
    requires row { from.0 < length lists.old.items }
    requires place { to.0 < length (slice_index_or (sends_of lists.old.items) from.0 []) }
    ensures sends { sends_of lists.new.items ≡ with_entry (sends_of lists.old.items) from.0 to.0 (Some pass) }
    ensures takes { takes_of lists.new.items ≡ takes_of lists.old.items }
    ensures guests { guests_of lists.new.items ≡ guests_of lists.old.items }
    ensures asks { asks_kept lists.new.items ≡ asks_kept lists.old.items }
{
    let sends = &mut lists[from.0 as usize].sends;
    sends[to.0 as usize] = Some(pass);
}

/// Puts the receiver's end of a wire into its list.
pub fn put_take(lists: &mut Vec<PassList>, from: GuestId, to: GuestId, pass: TakePass)
    requires row { to.0 < length lists.old.items }
    requires place { from.0 < length (slice_index_or (takes_of lists.old.items) to.0 []) }
    ensures sends { sends_of lists.new.items ≡ sends_of lists.old.items }
    ensures takes { takes_of lists.new.items ≡ with_entry (takes_of lists.old.items) to.0 from.0 (Some pass) }
    ensures guests { guests_of lists.new.items ≡ guests_of lists.old.items }
    ensures asks { asks_kept lists.new.items ≡ asks_kept lists.old.items }
{
    let takes = &mut lists[to.0 as usize].takes;
    takes[from.0 as usize] = Some(pass);
}

/// Takes the receiver's end of a wire out of its list.
pub fn take_out(lists: &mut Vec<PassList>, from: GuestId, to: GuestId) -> Option<TakePass>
    requires row { to.0 < length lists.old.items }
    requires place { from.0 < length (slice_index_or (takes_of lists.old.items) to.0 []) }
    ensures out { result ≡ entry (takes_of lists.old.items) to.0 from.0 }
    ensures sends { sends_of lists.new.items ≡ sends_of lists.old.items }
    ensures takes { takes_of lists.new.items ≡ with_entry (takes_of lists.old.items) to.0 from.0 None }
{
    let takes = &mut lists[to.0 as usize].takes;
    let place = &mut takes[from.0 as usize];
    place.take()
}
