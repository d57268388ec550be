//! How the wires and their passes are made.
ghost use Rattle.std.specs.Prelude.{◌≡◌, ◌+◌, ◌<◌, [], ℕ, length, replicate, slice_index, slice_index_or, Some, None, IfOk, OnOk, All};
ghost use Rattle.wire_queue.specs.QueueIds.{queue_id};
ghost use Rattle.wire_queue.specs.Lines.{terms_of};
ghost use Rattle.wire_queue.specs.Between.{guest_count};
ghost use Rattle.wire_queue.specs.WireParts.{ids_of};
ghost use Rattle.wire_queue.specs.PassTables.{sends_of, takes_of, guests_of, asks_kept, with_entry};
ghost use Rattle.wire_queue.specs.PassLists.{AreAllOf, IsUnused, JoinsAll};
ghost use Rattle.wire_queue.specs.Making.{AreMade, IsConnected, MadeBelow};

use crate::lists::{AllPasses, PassList, put_send, put_take};
use crate::passes::{SendPass, TakePass};
use crate::terms::Terms;
use crate::wire::WireQueue;
use crate::wires::Wires;
use base_words::{CellList, GuestId, Shape};
use std::alloc::{AllocError, Global};

/// So many places, with nothing in them.
fn places<T: Drop>(alloc: Global, count: usize) -> Result<Vec<Option<T>>, AllocError>
    ensures { IfOk result (λ row. row.items ≡ replicate count None) }
{
    let mut row = Vec::with_capacity(alloc, count)?;
    for _place in 0..count {
        row.push(None)?;
    }
    Ok(row)
}

/// So many counts, each 0.
fn counts(alloc: Global, count: usize) -> Result<Vec<u64>, AllocError>
    ensures { IfOk result (λ row. row.items ≡ replicate count 0) }
{
    let mut row = Vec::with_capacity(alloc, count)?;
    for _place in 0..count {
        row.push(0)?;
    }
    Ok(row)
}

/// So many rows of so many places.
fn rows(alloc: Global, count: usize) -> Result<Vec<Vec<Option<WireQueue>>>, AllocError>
    ensures { IfOk result (λ rows. ids_of rows.items ≡ replicate count (replicate count None)) }
{
    let mut rows = Vec::with_capacity(alloc, count)?;
    for _row in 0..count {
        rows.push(places(alloc, count)?)?;
    }
    Ok(rows)
}

/// A list for each guest, with a place for each pass and a count for each wire to it.
fn lists(alloc: Global, guests: u8) -> Result<Vec<PassList>, AllocError>
    ensures sends { IfOk result (λ lists. sends_of lists.items ≡ replicate guests (replicate guests None)) }
    ensures takes { IfOk result (λ lists. takes_of lists.items ≡ replicate guests (replicate guests None)) }
    ensures asks { IfOk result (λ lists. asks_kept lists.items ≡ replicate guests guests) }
    ensures guests { IfOk result (λ lists. (guest : ℕ) → guest < guests → slice_index (guests_of lists.items) guest ≡ guest) }
{
    let count = guests as usize;
    let mut lists = Vec::with_capacity(alloc, count)?;
    for guest in 0..guests {
        lists.push(PassList {
            guest: GuestId(guest),
            sends: places(alloc, count)?,
            takes: places(alloc, count)?,
            asks: counts(alloc, count)?,
        })?;
    }
    Ok(lists)
}

/// Puts the queue of a wire into its place.
fn put_wire(rows: &mut Vec<Vec<Option<WireQueue>>>, from: GuestId, to: GuestId, wire: WireQueue)
    requires row { from.0 < length rows.old.items }
    requires place { to.0 < length (slice_index_or (ids_of rows.old.items) from.0 []) }
    ensures { ids_of rows.new.items ≡ with_entry (ids_of rows.old.items) from.0 to.0 (Some (queue_id wire.queue)) }
{
    let row = &mut rows[from.0 as usize];
    row[to.0 as usize] = Some(wire);
}

/// Makes the wire from one guest to another.
fn connect(
    alloc: Global,
    rows: &mut Vec<Vec<Option<WireQueue>>>,
    lists: &mut Vec<PassList>,
    from: GuestId,
    to: GuestId,
    shape: &Shape,
    homes: &CellList,
) -> Result<(), AllocError>
    requires wire { (from.0 < length rows.old.items) × (to.0 < length (slice_index_or (ids_of rows.old.items) from.0 [])) }
    requires send { (from.0 < length lists.old.items) × (to.0 < length (slice_index_or (sends_of lists.old.items) from.0 [])) }
    requires take { (to.0 < length lists.old.items) × (from.0 < length (slice_index_or (takes_of lists.old.items) to.0 [])) }
    ensures { OnOk result (IsConnected (terms_of shape.now homes.now) from.0 to.0 (ids_of rows.old.items) (ids_of rows.new.items) lists.old.items lists.new.items) }
{
    let (wire, sender, taker) = WireQueue::open(alloc, from, to, shape, homes)?;
    let send = SendPass {
        seat: sender,
        from,
        to,
    };
    let take = TakePass {
        seat: taker,
        from,
        to,
    };
    put_send(lists, from, to, send);
    put_take(lists, from, to, take);
    put_wire(rows, from, to, wire);
    Ok(())
}

/// Makes the wires from a guest to each other.
fn connect_sender(
    alloc: Global,
    rows: &mut Vec<Vec<Option<WireQueue>>>,
    lists: &mut Vec<PassList>,
    from: GuestId,
    guests: u8,
    shape: &Shape,
    homes: &CellList,
) -> Result<(), AllocError>
    requires within { from.0 < guests }
    requires made { AreMade guests (terms_of shape.now homes.now) (ids_of rows.old.items) lists.old.items }
    requires below { MadeBelow guests from.0 (ids_of rows.old.items) }
    ensures made { OnOk result (AreMade guests (terms_of shape.now homes.now) (ids_of rows.new.items) lists.new.items) }
    ensures below { OnOk result (MadeBelow guests (from.0 + 1) (ids_of rows.new.items)) }
{
    for to in 0..guests {
        if to != from.0 {
            connect(alloc, rows, lists, from, GuestId(to), shape, homes)?;
        }
    }
    Ok(())
}

/// Makes all wires.
fn connect_all(
    alloc: Global,
    rows: &mut Vec<Vec<Option<WireQueue>>>,
    lists: &mut Vec<PassList>,
    guests: u8,
    shape: &Shape,
    homes: &CellList,
) -> Result<(), AllocError>
    requires { AreMade guests (terms_of shape.now homes.now) (ids_of rows.old.items) lists.old.items }
    ensures made { OnOk result (AreMade guests (terms_of shape.now homes.now) (ids_of rows.new.items) lists.new.items) }
    ensures below { OnOk result (MadeBelow guests guests (ids_of rows.new.items)) }
{
    for from in 0..guests {
        connect_sender(alloc, rows, lists, GuestId(from), guests, shape, homes)?;
    }
    Ok(())
}

impl Wires {
    /// The wires between so many guests, and each guest's passes. `homes` has the home cell of each guest, and `shape` says on
    /// which cell a frame lies.
    pub fn new(
        alloc: Global,
        guests: u8,
        shape: &Shape,
        homes: &CellList,
    ) -> Result<(Wires, AllPasses), AllocError>
        ensures guests { IfOk result (λ made. guest_count made.0 ≡ guests) }
        ensures terms { IfOk result (λ made. made.0.terms ≡ terms_of shape.now homes.now) }
        ensures joins { IfOk result (λ made. JoinsAll made.0) }
        ensures passes { IfOk result (λ made. AreAllOf made.0 made.1) }
        ensures unused { IfOk result (λ made. All IsUnused made.1) }
    {
        let terms = Terms::new(alloc, shape, homes)?;
        let mut rows = rows(alloc, guests as usize)?;
        let mut lists = lists(alloc, guests)?;
        connect_all(alloc, &mut rows, &mut lists, guests, shape, homes)?;
        let wires = Wires {
            guests,
            rows,
            terms,
        };
        Ok((wires, AllPasses::from_vec(lists)))
    }
}
