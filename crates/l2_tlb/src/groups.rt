//! The places in groups of 16, and for each group which pages may stand there, told apart by the low 6 bits of their numbers.
ghost use Rattle.std.specs.Prelude.{◌≡◌, ℕ, ◌+◌, ◌*◌, ◌<◌, ◌/◌, ◌%◌, true, length, slice_index_or, slice_set};
ghost use Rattle.private_machine.specs.SecondLevel.{unless_of_page, seconds_without_page};
ghost use Rattle.l2_tlb.specs.Seconds.{seen};
ghost use Rattle.l2_tlb.specs.Marks.{AreMarked, is_of_kind};

use crate::L2Entry;
use base_words::Ppn;

/// How many places there are.
pub const PLACES: usize = 512;
/// How many places a group has.
pub const GROUP: usize = 16;
/// How many groups there are.
const GROUPS: usize = 32;
/// How many kinds of pages the marks tell apart.
const KINDS: u32 = 64;
/// How many marks there are: one for each kind in each group.
pub const MARKS: usize = 2048;

/// The mark for a page in a group.
#[inline]
pub fn mark(page: Ppn, group: usize) -> usize
    requires { group < GROUPS }
    ensures mark { result ≡ page.0 % 64 * 32 + group }
    ensures within { result < 2048 }
{
    (page.0 % KINDS) as usize * GROUPS + group
}

/// Empties a place if it holds a page, and says whether an entry of the page's kind stays there.
fn drop_of_page(places: &mut [Option<L2Entry>], place: usize, page: Ppn) -> bool
    requires { place < length places.old }
    ensures dropped { seen places.new
        ≡ slice_set (seen places.old) place (unless_of_page page.0 (slice_index_or (seen places.old) place None)) }
    ensures stays { result ≡ is_of_kind page.0 (slice_index_or (seen places.new) place None) }
{
    let Some(entry) = places[place] else {
        return false;
    };
    if entry.page.0 == page.0 {
        places[place] = None;
        return false;
    }
    entry.page.0 % KINDS == page.0 % KINDS
}

/// Empties each place of a group that holds a page, and says whether an entry of the page's kind stays there.
fn drop_in_group(places: &mut [Option<L2Entry>], group: usize, page: Ppn) -> bool
    requires places { length places.old ≡ 512 }
    requires group { group < GROUPS }
    ensures inside { (k : ℕ) → k / 16 ≡ group
        → slice_index_or (seen places.new) k None ≡ unless_of_page page.0 (slice_index_or (seen places.old) k None) }
    ensures outside { (k : ℕ) → (k / 16 ≡ group → ⊥)
        → slice_index_or (seen places.new) k None ≡ slice_index_or (seen places.old) k None }
    ensures stays { (k : ℕ) → k / 16 ≡ group
        → is_of_kind page.0 (slice_index_or (seen places.new) k None) ≡ true → result ≡ true }
{
    let mut stays = false;
    for place in group * GROUP..group * GROUP + GROUP {
        if drop_of_page(places, place, page) {
            stays = true;
        }
    }
    stays
}

/// Empties each place that holds a page.
pub fn drop_marked(places: &mut [Option<L2Entry>], marks: &mut [bool], page: Ppn)
    requires places { length places.old ≡ 512 }
    requires marked { AreMarked (seen places.old) marks.old }
    ensures dropped { seen places.new ≡ seconds_without_page page.0 (seen places.old) }
    ensures marked { AreMarked (seen places.new) marks.new }
{
    for group in 0..GROUPS {
        let number = mark(page, group);
        if marks[number] {
            marks[number] = drop_in_group(places, group, page);
        }
    }
}
