//! The fields of one entry.
ghost use Rattle.base_words.specs.declared.tlb.TlbAnswer.TheVariants.{Hit};
ghost use Rattle.std.specs.Prelude.{ℕ, ◌^◌, ◌≡◌, ◌<◌};
ghost use Rattle.base_words.specs.Tlb.{page_pair as page_pair_of, address_space as address_space_of, is_global as is_global_entry, matches as is_match, half as half_of, permitted as permitted_by, kept as kept_entry, kept_lo as kept_lo_of, entry_at_reset};

use base_words::{Entry, TlbAnswer};

/// The bytes of a page.
const PAGE: u32 = 1 << 12;
/// The bytes of a pair of pages; the lowest bit of VPN2.
const PAIR: u32 = 1 << 13;
/// The first address that isn't mapped.
const UNMAPPED: u32 = 1 << 31;
/// V in a half. G is its lowest bit.
const VALID: u32 = 1 << 1;
/// D in a half.
const DIRTY: u32 = 1 << 2;
/// The lowest bit of PFN in a half.
const FRAME: u32 = 1 << 6;
/// How many frames PFN tells apart.
const FRAMES: u32 = 1 << 24;
/// Past the highest bit of PFN: the bits from here on belong to no field.
const FIELDS: u32 = 1 << 30;

/// The pair of pages in which an address lies (VPN2).
pub fn page_pair(word: u32) -> u32
    ensures { result ≡ page_pair_of word }
{
    word / PAIR
}

/// The address space that an EntryHi names (ASID).
pub fn address_space(hi: u32) -> u8
    ensures { result ≡ address_space_of hi }
{
    (hi % 256) as u8
}

/// Whether an entry is of all address spaces.
pub fn is_global(entry: &Entry) -> bool
    ensures { result ≡ is_global_entry entry.now }
{
    entry.lo0 % 2 == 1 && entry.lo1 % 2 == 1
}

/// Whether an entry is of this pair of pages in this address space.
pub fn matches(entry: &Entry, pair: u32, asid: u8) -> bool
    ensures { result ≡ is_match pair asid entry.now }
{
    page_pair(entry.hi) == pair && (is_global(entry) || address_space(entry.hi) == asid)
}

/// The half of an entry in which an address lies.
pub fn half(entry: &Entry, address: u32) -> u32
    ensures { result ≡ half_of address entry.now }
{
    if address / PAGE % 2 == 1 {
        entry.lo1
    } else {
        entry.lo0
    }
}

/// What a half says of a store or another use.
pub fn permitted(lo: u32, store: bool) -> TlbAnswer
    ensures answer { result ≡ permitted_by store lo }
    ensures reach { (frame : ℕ) → result ≡ Hit frame → frame < 2 ^ 24 }
{
    if lo / VALID % 2 == 0 {
        TlbAnswer::Invalid
    } else if store && lo / DIRTY % 2 == 0 {
        TlbAnswer::ReadOnly
    } else {
        TlbAnswer::Hit(lo / FRAME % FRAMES)
    }
}

/// A half as the TLB keeps it.
fn kept_lo(lo: u32, global: bool) -> u32
    ensures { result ≡ kept_lo_of global lo }
{
    lo % FIELDS / 2 * 2 + u32::from(global)
}

/// An entry as the TLB keeps it: it is global where both halves are marked so.
pub fn kept(entry: Entry) -> Entry
    ensures { result ≡ kept_entry entry }
{
    let global = is_global(&entry);
    Entry {
        hi: page_pair(entry.hi) * PAIR + u32::from(address_space(entry.hi)),
        lo0: kept_lo(entry.lo0, global),
        lo1: kept_lo(entry.lo1, global),
    }
}

/// The entry of a number at the start: no address that is mapped lies in its pair of pages.
pub fn at_reset(index: usize) -> Entry
    requires { index < 48 }
    ensures { result ≡ entry_at_reset index }
{
    Entry {
        hi: UNMAPPED + PAIR * index as u32,
        lo0: 0,
        lo1: 0,
    }
}
