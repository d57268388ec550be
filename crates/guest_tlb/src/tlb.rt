//! The entries of a guest's TLB.
ghost use Rattle.std.specs.Prelude.{◌≡◌, ℕ, ◌<◌, ◌^◌, length};
ghost use Rattle.base_words.specs.declared.tlb.TlbAnswer.TheVariants.{Hit};
ghost use Rattle.base_words.specs.Tlb.{looked_up, probed, entry_read, entry_written, tlb_at_reset};
ghost use Rattle.guest_tlb.specs.Everywhere.{only_global};

use crate::entries::{address_space, at_reset, half, kept, matches, page_pair, permitted};
use crate::everywhere;
use base_words::{Entry, TlbAnswer};
use std::array;
use std::marker::Model;

/// The guest's TLB.
#[derive(Clone, Copy, Debug, PartialEq, Eq)]
pub struct Tlb48 {
    entries: [Entry; 48],
}

impl Model for Tlb48 {
    ghost use Rattle.std.specs.Prelude.{List};
    ghost use Rattle.base_words.specs.declared.tlb.Entry.{Entry};

    ghost Value = { List Entry };

    ghost view = { λ t. t.entries };

    ghost inverse = { λ entries. record { entries = entries } };
}

impl Tlb48 {
    /// The TLB at the start.
    pub fn new() -> Self
        ensures { result ≡ tlb_at_reset }
    {
        Tlb48 {
            entries: array::from_fn(at_reset),
        }
    }

    /// What the TLB says of an address in an address space, for a store or another use. A frame's number has 24 bits.
    pub fn lookup(&self, address: u32, asid: u8, store: bool) -> TlbAnswer
        ensures answer { result ≡ looked_up self.now address asid store }
        ensures reach { (frame : ℕ) → result ≡ Hit frame → frame < 2 ^ 24 }
    {
        let pair = page_pair(address);
        match self.entries.iter().find(|entry| matches(entry, pair, asid)) {
            None => TlbAnswer::Miss,
            Some(entry) => permitted(half(entry, address), store),
        }
    }

    /// Whether the entry that counts for an address is of all address spaces, and no other is of its pair of pages.
    pub fn is_only_global(&self, address: u32, asid: u8) -> bool
        ensures { result ≡ only_global self.now asid address }
    {
        everywhere::only_global(&self.entries, address, asid)
    }

    /// The lowest entry that matches an EntryHi.
    pub fn probe(&self, hi: u32) -> Option<u8>
        ensures { result ≡ probed self.now hi }
    {
        let pair = page_pair(hi);
        let asid = address_space(hi);
        let found = self
            .entries
            .iter()
            .position(|entry| matches(entry, pair, asid))?;
        Some(found as u8)
    }

    /// An entry as it is kept; one past the last is zeros.
    pub fn read(&self, index: u8) -> Entry
        ensures entry { result ≡ entry_read self.now index }
        ensures entries { length self.now ≡ 48 }
    {
        match self.entries.get(index as usize) {
            Some(entry) => *entry,
            None => Entry {
                hi: 0,
                lo0: 0,
                lo1: 0,
            },
        }
    }

    /// Replaces an entry, which is global where both halves are marked so; one past the last changes nothing.
    pub fn write(&mut self, index: u8, entry: Entry)
        ensures written { self.new ≡ entry_written self.old index entry }
        ensures entries { length self.new ≡ 48 }
    {
        let entries = &mut self.entries[..];
        if (index as usize) < entries.len() {
            entries[index as usize] = kept(entry);
        }
    }
}
