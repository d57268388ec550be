//! The halves of a kind: where one stands, and how they go. The rooms are looked through only where counts and hints don't say it.
ghost use Rattle.std.specs.Prelude.{◌≡◌, ◌/◌, ◌==◌, ◌^◌, ◌<◌, false, length, map};
ghost use Rattle.base_words.specs.Halves.{clash};
ghost use Rattle.hw_tlb.specs.Dropping.{emptied};
ghost use Rattle.hw_tlb.specs.Counts.{HasNoSuch};
ghost use Rattle.hw_tlb.specs.Rooms.{IsPlaceNaming, IsPlaceOf, half_of, is_keyed};

use crate::buckets::{key_bucket, number_bucket};
use crate::hints::Hints;
use crate::others::{has_other_shared, has_other_spaced};
use crate::room::{Room, SPACES};
use crate::rooms::Rooms;
use base_words::{FrameNo, Ppn};

/// The places of all entries.
pub const PLACES: u8 = 96;
/// How many pairs of virtual pages there are.
const PAIRS: u32 = 1 << 19;

/// Whether a half of this key may be there, as counts and hints say.
fn may_have(rooms: &Rooms, hints: &Hints, last: &Hints, key: u32) -> bool
    requires { key < 2 ^ 28 }
    ensures { result ≡ false → HasNoSuch (is_keyed key) rooms.now }
{
    let space_bucket = key_bucket(key);
    let hinted = hints.at(space_bucket);
    let bucket = number_bucket(key / SPACES);
    let near = last.at(bucket);
    rooms.at(hinted).matches(key)
        || rooms.at(near).matches(key)
        || has_other_spaced(rooms, space_bucket, hinted)
        || has_other_shared(rooms, bucket, near)
}

/// The place of a half of this key, by a look through all rooms; `PLACES` where there is none.
fn place_of_key(rooms: &Rooms, key: u32) -> u8
    requires { key < 2 ^ 28 }
    ensures { IsPlaceOf key rooms.now result }
{
    for place in 0..PLACES {
        if rooms.at(place).matches(key) {
            return place;
        }
    }
    PLACES
}

/// The place of a half of this key, where the hint of the key doesn't lead to it; `PLACES` where there is none.
#[cold]
#[inline(never)]
pub fn far_place(rooms: &Rooms, hints: &Hints, last: &Hints, key: u32) -> u8
    requires { key < 2 ^ 28 }
    ensures { IsPlaceOf key rooms.now result }
{
    let near = last.at(number_bucket(key / SPACES));
    if rooms.at(near).matches(key) {
        return near;
    }
    if !may_have(rooms, hints, last, key) {
        return PLACES;
    }
    place_of_key(rooms, key)
}

/// The place of a half that names this frame; `PLACES` where there is none.
pub fn place_of_frame(rooms: &Rooms, frame: FrameNo) -> u8
    ensures { IsPlaceNaming frame.0 rooms.now result }
{
    for place in 0..PLACES {
        if rooms.at(place).leads_to(frame) {
            return place;
        }
    }
    PLACES
}

/// Drops the halves with which a new one clashes.
pub fn drop_clashing(rooms: &mut Rooms, new: &Room)
    requires long { length rooms.old ≡ 96 }
    requires key { new.now.key < 2 ^ 28 }
    ensures { rooms.new ≡ map (emptied (clash (half_of new.now))) rooms.old }
{
    for place in 0..PLACES {
        if rooms.at(place).clashes(new) {
            rooms.clear(place);
        }
    }
}

/// Drops the halves that name a page.
pub fn drop_named(rooms: &mut Rooms, page: Ppn)
    requires { length rooms.old ≡ 96 }
    ensures { rooms.new ≡ map (emptied (λ h. h.page == page.0)) rooms.old }
{
    for place in 0..PLACES {
        if rooms.at(place).names(page) {
            rooms.clear(place);
        }
    }
}

/// Drops the halves of a pair of virtual pages, by a look through all rooms.
fn sweep_pair(rooms: &mut Rooms, pair: u32)
    requires { length rooms.old ≡ 96 }
    ensures { rooms.new ≡ map (emptied (λ h. h.number / 2 == pair)) rooms.old }
{
    for place in 0..PLACES {
        if rooms.at(place).is_of_pair(pair) {
            rooms.clear(place);
        }
    }
}

/// Drops the halves of a virtual page, by a look through all rooms.
fn sweep_number(rooms: &mut Rooms, number: u32)
    requires { length rooms.old ≡ 96 }
    ensures { rooms.new ≡ map (emptied (λ h. h.number == number)) rooms.old }
{
    for place in 0..PLACES {
        if rooms.at(place).is_of_number(number) {
            rooms.clear(place);
        }
    }
}

/// Drops the halves of a virtual page.
fn drop_number(rooms: &mut Rooms, last: &Hints, number: u32)
    requires long { length rooms.old ≡ 96 }
    requires number { number < 2 ^ 24 }
    ensures { rooms.new ≡ map (emptied (λ h. h.number == number)) rooms.old }
{
    let bucket = number_bucket(number);
    let count = rooms.numbered(bucket);
    if count == 0 {
        return;
    }
    let place = last.at(bucket);
    if count > 1 || !rooms.at(place).is_numbered(bucket) {
        sweep_number(rooms, number);
        return;
    }
    if rooms.at(place).is_of_number(number) {
        rooms.clear(place);
    }
}

/// Drops the halves of a pair of virtual pages.
pub fn drop_paired(rooms: &mut Rooms, last: &Hints, pair: u32)
    requires { length rooms.old ≡ 96 }
    ensures { rooms.new ≡ map (emptied (λ h. h.number / 2 == pair)) rooms.old }
{
    if pair < PAIRS {
        drop_number(rooms, last, 2 * pair);
        drop_number(rooms, last, 2 * pair + 1);
    } else {
        sweep_pair(rooms, pair);
    }
}
