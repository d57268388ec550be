//! The rooms of all places, and how many halves of each bucket stand in them.
ghost use Rattle.std.specs.Prelude.{◌≡◌, ◌^◌, ◌<◌, Some, None, slice_set};
ghost use Rattle.hw_tlb.specs.Tlb.{half_at, no_halves};
ghost use Rattle.hw_tlb.specs.Counts.{count, is_numbered, is_spaced, is_shared};
ghost use Rattle.hw_tlb.specs.Rooms.{half_of, half_in};

use crate::buckets::{key_bucket, number_bucket};
use crate::room::Room;
use std::marker::Model;

/// The rooms of all places. Three counts say how many halves there are of each bucket, so that most often it is known without a
/// look through the rooms that a half isn't there.
#[derive(Debug, Drop)]
pub struct Rooms {
    rooms: [Room; 96],
    /// The halves, by the bucket of the number.
    numbered: [u8; 256],
    /// The halves of one address space, by the bucket of the key.
    spaced: [u8; 256],
    /// The halves of all address spaces, by the bucket of the number.
    shared: [u8; 256],
}

impl Model for Rooms {
    ghost use Rattle.std.specs.Prelude.{List, Option};
    ghost use Rattle.base_words.specs.Halves.{Half};
    ghost use Rattle.hw_tlb.specs.Rooms.{places_of, AreCounted};

    ghost Value = { List (Option Half) };

    ghost view = { λ r. places_of r.rooms };

    ghost invariant = { λ r. AreCounted r.rooms r.numbered r.spaced r.shared };
}

impl Rooms {
    /// Rooms without a half.
    pub fn new() -> Rooms
        ensures { result ≡ no_halves }
    {
        Rooms {
            rooms: [Room::empty(); 96],
            numbered: [0; 256],
            spaced: [0; 256],
            shared: [0; 256],
        }
    }

    /// The room of a place.
    #[inline]
    pub fn at(&self, place: u8) -> &Room
        requires { place < 96 }
        ensures { half_in result.now ≡ half_at self.now place }
    {
        &self.rooms[place as usize]
    }

    /// How many halves have a number of this bucket.
    pub fn numbered(&self, bucket: usize) -> u8
        requires { bucket < 256 }
        ensures { result ≡ count (is_numbered bucket) self.now }
    {
        self.numbered[bucket]
    }

    /// How many halves of one address space have a key of this bucket.
    pub fn spaced(&self, bucket: usize) -> u8
        requires { bucket < 256 }
        ensures { result ≡ count (is_spaced bucket) self.now }
    {
        self.spaced[bucket]
    }

    /// How many halves of all address spaces have a number of this bucket.
    pub fn shared(&self, bucket: usize) -> u8
        requires { bucket < 256 }
        ensures { result ≡ count (is_shared bucket) self.now }
    {
        self.shared[bucket]
    }

    /// Puts a half into a room that has none.
    pub fn put(&mut self, place: u8, new: &Room)
        requires place { place < 96 }
        requires free { half_at self.old place ≡ None }
        requires key { new.now.key < 2 ^ 28 }
        ensures { self.new ≡ slice_set self.old place (Some (half_of new.now)) }
    {
        let bucket = number_bucket(new.number());
        self.numbered[bucket] += 1;
        self.spaced[key_bucket(new.key)] += u8::from(!new.global);
        self.shared[bucket] += u8::from(new.global);
        self.rooms[place as usize] = *new;
    }

    /// Takes the half out of a room, if there is one.
    pub fn clear(&mut self, place: u8)
        requires { place < 96 }
        ensures { self.new ≡ slice_set self.old place None }
    {
        let room = self.rooms[place as usize];
        if room.has_half() {
            let bucket = number_bucket(room.number());
            self.numbered[bucket] -= 1;
            self.spaced[key_bucket(room.key)] -= u8::from(!room.global);
            self.shared[bucket] -= u8::from(room.global);
            self.rooms[place as usize] = Room::empty();
        }
    }
}
