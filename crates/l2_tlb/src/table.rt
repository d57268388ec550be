//! The table of a virtual processor.
ghost use Rattle.std.specs.Prelude.{◌≡◌, option_map};
ghost use Rattle.private_machine.specs.SecondLevel.{no_seconds, put as put_second, seconds_without_page, seconds_without_pair};
ghost use Rattle.l2_tlb.specs.Seconds.{second_of, second_at, AreInPlace};

use crate::L2Entry;
use crate::entry::drop_of_pair;
use crate::groups::{GROUP, MARKS, PLACES, drop_marked, mark};
use base_words::Ppn;
use std::marker::Model;

/// How many places there are for the lower page of a pair.
const PAIRS: usize = 256;

/// A virtual processor's second-level TLB.
#[derive(Debug, Drop)]
pub struct L2 {
    places: [Option<L2Entry>; PLACES],
    marks: [bool; MARKS],
}

impl Model for L2 {
    ghost use Rattle.std.specs.Prelude.{List, Option};
    ghost use Rattle.private_machine.specs.SecondLevel.{Second};
    ghost use Rattle.l2_tlb.specs.Seconds.{seen, AreInPlace};
    ghost use Rattle.l2_tlb.specs.Marks.{AreMarked};

    ghost Value = { List (Option Second) };

    ghost view = { λ t. seen t.places };

    ghost invariant = { λ t. AreInPlace (seen t.places) × AreMarked (seen t.places) t.marks };
}

impl L2 {
    /// The table without an entry.
    pub fn new() -> Self
        ensures none { result ≡ no_seconds }
        ensures places { AreInPlace result }
    {
        L2 {
            places: [None; PLACES],
            marks: [false; MARKS],
        }
    }

    /// The entry that the place of a virtual page holds for it in an address space.
    #[inline]
    pub fn get(&self, vpn: u32, asid: u8) -> Option<L2Entry>
        ensures entry { option_map second_of result ≡ second_at vpn asid self.now }
        ensures places { AreInPlace self.now }
    {
        let entry = self.places[vpn as usize % PLACES]?;
        if entry.is_of(vpn, asid) {
            Some(entry)
        } else {
            None
        }
    }

    /// An entry comes into its place, also where that holds another.
    pub fn put(&mut self, entry: L2Entry)
        ensures put { self.new ≡ put_second (second_of entry) self.old }
        ensures places { AreInPlace self.new }
    {
        let place = entry.vpn as usize % PLACES;
        self.marks[mark(entry.page, place / GROUP)] = true;
        self.places[place] = Some(entry);
    }

    /// The entries of a guest's page go.
    pub fn drop_page(&mut self, page: Ppn)
        ensures dropped { self.new ≡ seconds_without_page page.0 self.old }
        ensures places { AreInPlace self.new }
    {
        drop_marked(&mut self.places, &mut self.marks, page);
    }

    /// The entries of a pair of virtual pages go, in all address spaces. They can stand at two places alone.
    pub fn drop_pair(&mut self, vpn2: u32)
        ensures dropped { self.new ≡ seconds_without_pair vpn2 self.old }
        ensures places { AreInPlace self.new }
    {
        let lower = vpn2 as usize % PAIRS * 2;
        drop_of_pair(&mut self.places, lower, vpn2);
        drop_of_pair(&mut self.places, lower + 1, vpn2);
    }

    /// All entries go.
    pub fn clear(&mut self)
        ensures none { self.new ≡ no_seconds }
        ensures places { AreInPlace self.new }
    {
        *self = L2::new();
    }
}
