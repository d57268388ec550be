//! The processor's TLB.
ghost use Rattle.std.specs.Prelude.{◌≡◌, ◌≢◌, ◌/◌, ◌==◌, ◌<◌, [], filter, IfSome, IfNone};
ghost use Rattle.base_words.specs.Halves.{Half, Fills, without_page, without_pair};
ghost use Rattle.base_words.specs.Membership.{Has};
ghost use Rattle.hw_tlb.specs.Tlb.{halves, no_halves, IsConsistent};
ghost use Rattle.hw_tlb.specs.Dropping.{dropped};
ghost use Rattle.hw_tlb.specs.Lookup.{looked_up};
ghost use Rattle.hw_tlb.specs.Filling.{half_for, filled};

use crate::answer::HwAnswer;
use crate::buckets::{key_bucket, number_bucket};
use crate::entries::{entry_for, put};
use crate::hints::Hints;
use crate::room::{Room, key_of};
use crate::rooms::Rooms;
use crate::scans::{PLACES, drop_named, drop_paired, far_place, place_of_frame};
use base_words::{FrameNo, Ppn};
use std::marker::Model;

/// The processor's TLB. Entry e has the places 2e and 2e + 1.
#[derive(Debug, Drop)]
pub struct HwTlb {
    rooms: Rooms,
    /// The entry whose turn it is.
    next: u8,
    /// Where the half stands that was filled last for a key of this bucket. A half that stands elsewhere is found all the same, so
    /// nothing is lost where a hint is out of date.
    hints: Hints,
    /// Where the half stands that was filled last for a number of this bucket, in any address space.
    last: Hints,
}

impl Model for HwTlb {
    ghost use Rattle.hw_tlb.specs.Tlb.{Tlb};

    ghost Value = { Tlb };

    ghost use Rattle.hw_tlb.specs.Rooms.{Sound};

    ghost view = { λ t. record { places = t.rooms; next = t.next } };

    ghost invariant = { λ t. Sound t.rooms t.next };
}

impl HwTlb {
    /// A TLB without a half. The first entry has its turn.
    pub fn new() -> Self
        ensures start { result ≡ record { places = no_halves; next = 0 } }
        ensures consistent { IsConsistent result }
    {
        HwTlb {
            rooms: Rooms::new(),
            next: 0,
            hints: Hints::new(),
            last: Hints::new(),
        }
    }

    /// What the TLB says of an address in an address space, for a store or another use.
    #[inline(always)]
    pub fn lookup(&self, address: u32, asid: u8, store: bool) -> HwAnswer
        ensures answer { result ≡ looked_up (halves self.now) address asid store }
        ensures consistent { IsConsistent self.now }
    {
        let key = key_of(address, asid);
        let near = self.rooms.at(self.hints.at(key_bucket(key)));
        if near.matches(key) {
            return near.answer(store);
        }
        let place = far_place(&self.rooms, &self.hints, &self.last, key);
        if place < PLACES {
            self.rooms.at(place).answer(store)
        } else {
            HwAnswer::Miss
        }
    }

    /// The page of a half that names this frame; nothing where there is none.
    #[cold]
    pub fn page_of(&self, frame: FrameNo) -> Option<Ppn>
        ensures named { IfSome result (λ page. (h : Half) × Has (halves self.now) h × (h.frame ≡ frame.0) × (h.page ≡ page.0)) }
        ensures none { IfNone result ((h : Half) → Has (halves self.now) h → h.frame ≢ frame.0) }
    {
        let place = place_of_frame(&self.rooms, frame);
        if place < PLACES {
            Some(self.rooms.at(place).page)
        } else {
            None
        }
    }

    /// Adds a half: in the place of one with which it clashes, else beside its pair's other half, else in the entry whose turn it
    /// is. All halves with which it clashes go, and so does the other half of its entry where the two may not share it.
    pub fn fill(
        &mut self,
        address: u32,
        asid: u8,
        global: bool,
        page: Ppn,
        frame: FrameNo,
        writable: bool,
    )
        ensures filled { self.new ≡ filled (half_for address asid global page frame writable) self.old }
        ensures fills { Fills (half_for address asid global page frame writable) (halves self.old) (halves self.new) }
        ensures consistent { IsConsistent self.new }
    {
        let new = Room {
            key: key_of(address, asid),
            global,
            page,
            frame,
            writable,
        };
        let entry = entry_for(&self.rooms, &self.hints, &self.last, &new, &mut self.next);
        let place = put(&mut self.rooms, entry, &new);
        self.hints.set(key_bucket(new.key), place);
        self.last.set(number_bucket(new.number()), place);
    }

    /// Drops the halves that name a page.
    pub fn drop_page(&mut self, page: Ppn)
        ensures places { self.new ≡ dropped (λ h. h.page == page.0) self.old }
        ensures halves { halves self.new ≡ without_page page.0 (halves self.old) }
        ensures consistent { IsConsistent self.new }
    {
        drop_named(&mut self.rooms, page);
    }

    /// Drops the halves of a pair of virtual pages.
    pub fn drop_pair(&mut self, vpn2: u32)
        ensures places { self.new ≡ dropped (λ h. h.number / 2 == vpn2) self.old }
        ensures halves { halves self.new ≡ without_pair vpn2 (halves self.old) }
        ensures consistent { IsConsistent self.new }
    {
        drop_paired(&mut self.rooms, &self.last, vpn2);
    }

    /// Drops all halves. The turn stays.
    pub fn flush(&mut self)
        ensures places { self.new ≡ record self.old { places = no_halves } }
        ensures halves { halves self.new ≡ [] }
        ensures consistent { IsConsistent self.new }
    {
        self.rooms = Rooms::new();
    }
}
