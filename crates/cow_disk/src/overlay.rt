//! Blocks that are given, and pages that stand over them.
ghost use Rattle.std.specs.Prelude.{◌≡◌, ℕ, ◌<◌, ◌≤◌, length, slice_get, slice_index_or, slice_set, OnOk, OnErr, IsSome, IsOk};
ghost use Rattle.std.specs.Option.{option_copied};
ghost use Rattle.cow_disk.specs.DiskView.{bytes_of, base_pages, owns_of};

use base_words::{Blocks, Page};
use std::alloc::{AllocError, Global};
use std::sync::Arc;

/// The blocks of a base; none where there is none.
#[inline]
pub fn given(base: &Option<Arc<Blocks>>) -> &[Box<Page>]
    ensures { result.now ≡ base_pages base.now }
{
    match base {
        Some(blocks) => blocks.as_slice(),
        None => &[],
    }
}

/// A block of a base, if there is such a block.
#[inline]
pub fn given_block(base: &Option<Arc<Blocks>>, block: usize) -> Option<&Page>
    ensures { option_copied result ≡ slice_get (bytes_of (base_pages base.now)) block }
{
    match given(base).get(block) {
        Some(page) => Some(page),
        None => None,
    }
}

/// The page that stands over a block, if one does.
#[inline]
pub fn own_block(overlay: &[Option<Box<Page>>], block: usize) -> Option<&Page>
    ensures { option_copied result ≡ slice_index_or (owns_of overlay.now) block None }
{
    match overlay.get(block) {
        Some(Some(page)) => Some(page),
        _ => None,
    }
}

/// Makes a place for each of so many blocks, unless this one has a place. What stands over the blocks stays. Where memory is
/// wanting, nothing changes.
pub fn make_places(
    overlay: &mut Vec<Option<Box<Page>>>,
    count: usize,
    block: usize,
) -> Result<(), AllocError>
    requires within { block < count }
    requires few { length overlay.old.items ≤ count }
    ensures place { OnOk result (block < length overlay.new.items) }
    ensures few { length overlay.new.items ≤ count }
    ensures same { (k : ℕ) → slice_index_or (owns_of overlay.new.items) k None ≡ slice_index_or (owns_of overlay.old.items) k None }
    ensures again { block < length overlay.old.items → IsOk result }
{
    if block < overlay.len() {
        return Ok(());
    }
    overlay.resize_with(count, || None)
}

/// Copies a page over a block that has a place: into the page that stands there, else into a new one. Where memory is wanting,
/// nothing changes.
pub fn put(
    alloc: Global,
    overlay: &mut Vec<Option<Box<Page>>>,
    block: usize,
    page: &Page,
) -> Result<(), AllocError>
    requires { block < length overlay.old.items }
    ensures ok { OnOk result (owns_of overlay.new.items ≡ slice_set (owns_of overlay.old.items) block (Some page.now)) }
    ensures err { OnErr result (overlay.new.items ≡ overlay.old.items) }
    ensures count { length overlay.new.items ≡ length overlay.old.items }
    ensures again { IsSome (slice_index_or (owns_of overlay.old.items) block None) → IsOk result }
{
    if let Some(own) = &mut overlay[block] {
        own.copy_from(page);
        return Ok(());
    }
    let mut own = Page::zeroed(alloc)?;
    own.copy_from(page);
    overlay[block] = Some(own);
    Ok(())
}
