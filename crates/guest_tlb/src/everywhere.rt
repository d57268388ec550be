//! Whether entries say the same in every address space.
ghost use Rattle.std.specs.Prelude.{◌≡◌, find};
ghost use Rattle.base_words.specs.Tlb.{matches as is_match};
ghost use Rattle.guest_tlb.specs.Everywhere.{is_global_entry, entries_of as entries_of_pair, only_global as is_only_global};

use crate::entries::{is_global, matches, page_pair};
use base_words::Entry;

/// How many entries are of a pair of pages.
fn entries_of(entries: &[Entry], pair: u32) -> usize
    ensures { result ≡ entries_of_pair pair entries.now }
{
    entries
        .iter()
        .filter(|entry| page_pair(entry.hi) == pair)
        .count()
}

/// Whether the entry that counts for a pair of pages is of all address spaces.
fn is_global_at(entries: &[Entry], pair: u32, asid: u8) -> bool
    ensures { result ≡ is_global_entry (find (is_match pair asid) entries.now) }
{
    match entries.iter().find(|entry| matches(entry, pair, asid)) {
        None => false,
        Some(entry) => is_global(entry),
    }
}

/// Whether the entry that counts for an address is of all address spaces, and no other is of its pair of pages.
pub fn only_global(entries: &[Entry], address: u32, asid: u8) -> bool
    ensures { result ≡ is_only_global entries.now asid address }
{
    let pair = page_pair(address);
    is_global_at(entries, pair, asid) && entries_of(entries, pair) == 1
}
