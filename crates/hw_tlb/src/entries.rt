//! The entry that takes a new half. Entry e has the places 2e and 2e + 1.
ghost use Rattle.std.specs.Prelude.{◌≡◌, false, ◌+◌, ◌-◌, ◌*◌, ◌^◌, ◌<◌, length, IfSome, unwrap_or};
ghost use Rattle.base_words.specs.Halves.{clash};
ghost use Rattle.hw_tlb.specs.Tlb.{side as side_of, are_beside};
ghost use Rattle.hw_tlb.specs.Filling.{first_entry, found_entry, turn_after, placed};
ghost use Rattle.hw_tlb.specs.Counts.{HasNoSuch, HasNoSuchOn, IsFirst, IsOnlyOn, settled};
ghost use Rattle.hw_tlb.specs.Rooms.{AreInOrder, half_of};

use crate::buckets::{key_bucket, number_bucket};
use crate::hints::Hints;
use crate::others::{has_other_numbered, has_other_shared, has_other_spaced};
use crate::room::{Room, SPACES};
use crate::rooms::Rooms;
use crate::scans::{PLACES, drop_clashing};

/// How many entries there are.
const ENTRIES: u8 = 48;

/// Whether a half may be there with which the new one clashes, as counts and hints say.
fn may_clash(rooms: &Rooms, hints: &Hints, last: &Hints, new: &Room) -> bool
    requires { new.now.key < 2 ^ 28 }
    ensures { result ≡ false → HasNoSuch (clash (half_of new.now)) rooms.now }
{
    let bucket = number_bucket(new.number());
    let near = last.at(bucket);
    if new.global {
        rooms.at(near).clashes(new) || has_other_numbered(rooms, bucket, near)
    } else {
        let space_bucket = key_bucket(new.key);
        let hinted = hints.at(space_bucket);
        rooms.at(hinted).clashes(new)
            || rooms.at(near).clashes(new)
            || has_other_spaced(rooms, space_bucket, hinted)
            || has_other_shared(rooms, bucket, near)
    }
}

/// The place of the only half with which the new one clashes, where a hint leads to it; else `PLACES`.
fn near_clash(rooms: &Rooms, hints: &Hints, last: &Hints, new: &Room) -> u8
    requires key { new.now.key < 2 ^ 28 }
    requires order { AreInOrder rooms.now }
    ensures { result < 96 → IsOnlyOn (clash (half_of new.now)) (side_of (half_of new.now)) rooms.now result }
{
    let bucket = number_bucket(new.number());
    let place = if new.global {
        last.at(bucket)
    } else {
        hints.at(key_bucket(new.key))
    };
    if rooms.at(place).clashes(new) && (!new.global || rooms.numbered(bucket) == 1) {
        place
    } else {
        PLACES
    }
}

/// The first entry that has a half with which the new one clashes, by a look through all entries.
fn scanned_clash(rooms: &Rooms, new: &Room) -> Option<u8>
    requires { new.now.key < 2 ^ 28 }
    ensures first { result ≡ first_entry (clash (half_of new.now)) (side_of (half_of new.now)) rooms.now }
    ensures small { IfSome result (λ entry. entry < 48) }
{
    let side = new.side();
    for entry in 0..ENTRIES {
        if rooms.at(2 * entry + side).clashes(new) {
            return Some(entry);
        }
    }
    None
}

/// The first entry that has a half with which the new one clashes, on the side of the new one.
fn clashing_entry(rooms: &Rooms, hints: &Hints, last: &Hints, new: &Room) -> Option<u8>
    requires key { new.now.key < 2 ^ 28 }
    requires order { AreInOrder rooms.now }
    ensures first { result ≡ first_entry (clash (half_of new.now)) (side_of (half_of new.now)) rooms.now }
    ensures small { IfSome result (λ entry. entry < 48) }
{
    if !may_clash(rooms, hints, last, new) {
        return None;
    }
    let place = near_clash(rooms, hints, last, new);
    if place < PLACES {
        return Some(place / 2);
    }
    scanned_clash(rooms, new)
}

/// Whether a half may be there beside which the new one may stand, as counts and hints say.
fn may_share(rooms: &Rooms, hints: &Hints, last: &Hints, new: &Room) -> bool
    requires key { new.now.key < 2 ^ 28 }
    requires order { AreInOrder rooms.now }
    ensures { result ≡ false → HasNoSuchOn (are_beside (half_of new.now)) (1 - side_of (half_of new.now)) rooms.now }
{
    let other = new.other_key();
    if new.global {
        let bucket = number_bucket(other / SPACES);
        let near = last.at(bucket);
        rooms.at(near).is_beside(new) || has_other_shared(rooms, bucket, near)
    } else {
        let space_bucket = key_bucket(other);
        let hinted = hints.at(space_bucket);
        rooms.at(hinted).is_beside(new) || has_other_spaced(rooms, space_bucket, hinted)
    }
}

/// The place of the only half beside which the new one may stand, where a hint leads to it; else `PLACES`.
fn near_shared(rooms: &Rooms, hints: &Hints, new: &Room) -> u8
    requires key { new.now.key < 2 ^ 28 }
    requires order { AreInOrder rooms.now }
    ensures { result < 96 → IsOnlyOn (are_beside (half_of new.now)) (1 - side_of (half_of new.now)) rooms.now result }
{
    let place = hints.at(key_bucket(new.other_key()));
    if rooms.at(place).is_beside(new) && place % 2 == 1 - new.side() {
        place
    } else {
        PLACES
    }
}

/// The first entry that has a half beside which the new one may stand, by a look through all entries.
fn scanned_shared(rooms: &Rooms, new: &Room) -> Option<u8>
    requires { new.now.key < 2 ^ 28 }
    ensures first { result ≡ first_entry (are_beside (half_of new.now)) (1 - side_of (half_of new.now)) rooms.now }
    ensures small { IfSome result (λ entry. entry < 48) }
{
    let side = 1 - new.side();
    for entry in 0..ENTRIES {
        if rooms.at(2 * entry + side).is_beside(new) {
            return Some(entry);
        }
    }
    None
}

/// The first entry that has a half beside which the new one may stand.
fn shared_entry(rooms: &Rooms, hints: &Hints, last: &Hints, new: &Room) -> Option<u8>
    requires key { new.now.key < 2 ^ 28 }
    requires order { AreInOrder rooms.now }
    ensures first { result ≡ first_entry (are_beside (half_of new.now)) (1 - side_of (half_of new.now)) rooms.now }
    ensures small { IfSome result (λ entry. entry < 48) }
{
    if !may_share(rooms, hints, last, new) {
        return None;
    }
    let place = near_shared(rooms, hints, new);
    if place < PLACES {
        return Some(place / 2);
    }
    scanned_shared(rooms, new)
}

/// The entry for a new half: the one that it finds, else the one whose turn it is, which then is the next one's.
pub fn entry_for(rooms: &Rooms, hints: &Hints, last: &Hints, new: &Room, next: &mut u8) -> u8
    requires key { new.now.key < 2 ^ 28 }
    requires order { AreInOrder rooms.now }
    requires turn { next.old < 48 }
    ensures entry { result ≡ unwrap_or (found_entry (half_of new.now) rooms.now) next.old }
    ensures turn { next.new ≡ turn_after (found_entry (half_of new.now) rooms.now) next.old }
    ensures small { result < 48 }
    ensures small_turn { next.new < 48 }
{
    if let Some(entry) = clashing_entry(rooms, hints, last, new) {
        return entry;
    }
    if let Some(entry) = shared_entry(rooms, hints, last, new) {
        return entry;
    }
    let entry = *next;
    *next = (entry + 1) % ENTRIES;
    entry
}

/// Puts a new half into an entry, and answers its place. What stood there goes, and so does the entry's other half where the two
/// may not share it.
fn settle(rooms: &mut Rooms, entry: u8, new: &Room) -> u8
    requires key { new.now.key < 2 ^ 28 }
    requires entry { entry < 48 }
    ensures place { result ≡ 2 * entry + side_of (half_of new.now) }
    ensures settled { rooms.new ≡ settled (half_of new.now) entry rooms.old }
{
    let side = new.side();
    let place = 2 * entry + side;
    let other = 2 * entry + (1 - side);
    if !rooms.at(other).is_beside(new) {
        rooms.clear(other);
    }
    rooms.clear(place);
    rooms.put(place, new);
    place
}

/// Puts a new half into the entry that is for it, and answers its place. Those with which it clashes go, and so does the entry's
/// other half where the two may not share it.
pub fn put(rooms: &mut Rooms, entry: u8, new: &Room) -> u8
    requires key { new.now.key < 2 ^ 28 }
    requires entry { entry < 48 }
    requires long { length rooms.old ≡ 96 }
    requires order { AreInOrder rooms.old }
    requires first { IsFirst (half_of new.now) entry rooms.old }
    ensures place { result ≡ 2 * entry + side_of (half_of new.now) }
    ensures small { result < 96 }
    ensures placed { rooms.new ≡ placed (half_of new.now) entry rooms.old }
{
    if new.global && rooms.numbered(number_bucket(new.number())) > 1 {
        drop_clashing(rooms, new);
    }
    settle(rooms, entry, new)
}
