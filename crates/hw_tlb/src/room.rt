//! The room for one half.
ghost use Rattle.std.specs.Prelude.{◌≡◌, ◌+◌, ◌*◌, ◌/◌, ◌%◌, ◌^◌, ◌<◌, ◌==◌, nat_lt, if◌then◌else◌, Some, None};
ghost use Rattle.base_words.specs.Halves.{clash};
ghost use Rattle.hw_tlb.specs.Tlb.{side as side_of, are_beside};
ghost use Rattle.hw_tlb.specs.Lookup.{through};
ghost use Rattle.hw_tlb.specs.Filling.{has_such};
ghost use Rattle.hw_tlb.specs.Counts.{other_number, is_numbered, is_spaced, is_shared};
ghost use Rattle.hw_tlb.specs.Rooms.{half_of, half_in, is_keyed, is_naming};

use crate::answer::HwAnswer;
use crate::buckets::{key_bucket, number_bucket};
use base_words::{FrameNo, Ppn};

/// The bytes of a page.
pub const PAGE: u32 = 1 << 12;
/// How many address spaces there are.
pub const SPACES: u32 = 1 << 8;
/// The key of a room without a half, past all keys of 20 and 8 bits.
const NO_KEY: u32 = 1 << 28;

/// The room for one half.
#[derive(Clone, Copy, Debug, PartialEq, Eq)]
pub struct Room {
    /// The virtual page's number times 256 and the ASID; `NO_KEY` where there is no half.
    pub key: u32,
    /// The guest's page.
    pub page: Ppn,
    /// The frame.
    pub frame: FrameNo,
    /// Whether the half is of all address spaces.
    pub global: bool,
    /// Whether a store may go through the half.
    pub writable: bool,
}

/// The key of an address in an address space.
#[inline]
pub fn key_of(address: u32, asid: u8) -> u32
    ensures { result ≡ address / 4096 * 256 + asid }
{
    address / PAGE * SPACES + u32::from(asid)
}

impl Room {
    /// A room without a half.
    pub fn empty() -> Room
        ensures { half_in result ≡ None }
    {
        Room {
            key: NO_KEY,
            page: Ppn(0),
            frame: FrameNo(0),
            global: false,
            writable: false,
        }
    }

    /// The side of its entry on which the half stands.
    pub fn side(&self) -> u8
        ensures side { result ≡ side_of (half_of self.now) }
        ensures small { result < 2 }
    {
        (self.key / SPACES % 2) as u8
    }

    /// The pair of virtual pages that the half is of.
    pub fn pair(&self) -> u32
        ensures { result ≡ (half_of self.now).number / 2 }
    {
        self.key / SPACES / 2
    }

    /// The number of the virtual page that the half is of.
    pub fn number(&self) -> u32
        ensures number { result ≡ (half_of self.now).number }
        ensures small { result < 2 ^ 24 }
    {
        self.key / SPACES
    }

    /// The key of the pair's other virtual page, in the same address space.
    pub fn other_key(&self) -> u32
        ensures number { result / 256 ≡ other_number (half_of self.now) }
        ensures asid { result % 256 ≡ (half_of self.now).asid }
    {
        if self.side() == 0 {
            self.key + SPACES
        } else {
            self.key - SPACES
        }
    }

    /// Whether there is a half.
    pub fn has_half(&self) -> bool
        ensures { result ≡ nat_lt self.now.key 268435456 }
    {
        self.key < NO_KEY
    }

    /// Whether there is a half whose number is of this bucket.
    pub fn is_numbered(&self, bucket: usize) -> bool
        ensures { result ≡ has_such (is_numbered bucket) (half_in self.now) }
    {
        self.has_half() && number_bucket(self.number()) == bucket
    }

    /// Whether there is a half of one address space whose key is of this bucket.
    pub fn is_spaced(&self, bucket: usize) -> bool
        ensures { result ≡ has_such (is_spaced bucket) (half_in self.now) }
    {
        self.has_half() && !self.global && key_bucket(self.key) == bucket
    }

    /// Whether there is a half of all address spaces whose number is of this bucket.
    pub fn is_shared(&self, bucket: usize) -> bool
        ensures { result ≡ has_such (is_shared bucket) (half_in self.now) }
    {
        self.has_half() && self.global && number_bucket(self.number()) == bucket
    }

    /// Whether the half is of the virtual page of this number.
    pub fn is_of_number(&self, number: u32) -> bool
        ensures { result ≡ ((half_of self.now).number == number) }
    {
        self.number() == number
    }

    /// Whether the half is of this pair of virtual pages.
    pub fn is_of_pair(&self, pair: u32) -> bool
        ensures { result ≡ ((half_of self.now).number / 2 == pair) }
    {
        self.pair() == pair
    }

    /// Whether the half names this page.
    pub fn names(&self, page: Ppn) -> bool
        ensures { result ≡ ((half_of self.now).page == page.0) }
    {
        self.page.0 == page.0
    }

    /// Whether there is a half that names this frame.
    pub fn leads_to(&self, frame: FrameNo) -> bool
        ensures { result ≡ has_such (is_naming frame.0) (half_in self.now) }
    {
        self.key < NO_KEY && self.frame.0 == frame.0
    }

    /// Whether there is a half, of the key's virtual page in the key's address space.
    #[inline]
    pub fn matches(&self, key: u32) -> bool
        requires { key < 2 ^ 28 }
        ensures { result ≡ has_such (is_keyed key) (half_in self.now) }
    {
        self.key == key || self.global && self.key / SPACES == key / SPACES
    }

    /// What the half says of a use, a store or another.
    #[inline]
    pub fn answer(&self, store: bool) -> HwAnswer
        ensures { result ≡ through store (Some (half_of self.now)) }
    {
        if store && !self.writable {
            HwAnswer::ReadOnly(self.frame, self.page)
        } else {
            HwAnswer::Hit(self.frame, self.page)
        }
    }

    /// Whether there is a half with which the new one clashes.
    pub fn clashes(&self, new: &Room) -> bool
        requires { new.now.key < 2 ^ 28 }
        ensures { result ≡ has_such (clash (half_of new.now)) (half_in self.now) }
    {
        self.key / SPACES == new.key / SPACES && (self.global || new.global || self.key == new.key)
    }

    /// Whether there is a half that may share an entry with the new one.
    pub fn is_beside(&self, new: &Room) -> bool
        requires { new.now.key < 2 ^ 28 }
        ensures { result ≡ has_such (are_beside (half_of new.now)) (half_in self.now) }
    {
        self.is_of_pair(new.pair())
            && self.key % SPACES == new.key % SPACES
            && self.global == new.global
    }
}
