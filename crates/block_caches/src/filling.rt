//! How the caches are filled: with each block of each disk of the guests that are at home on the cell, in order of disk and block, until
//! the cell's frames are used up.
ghost use Rattle.std.specs.Prelude.{◌≡◌, ◌<◌, ◌≤◌, ◌^◌, ℕ, [], All, IfOk, OnOk, List, map};
ghost use Rattle.std.specs.Borrow.{Bor};
ghost use Rattle.std.specs.Option.{option_map_or};
ghost use Rattle.frame_words.specs.Holders.{MadeTable};
ghost use Rattle.node_frames.specs.Layout.{Layout};
ghost use Rattle.node_frames.specs.Left.{Left};
ghost use Rattle.private_machine.specs.Disk.{Block};
ghost use Rattle.cow_disk.specs.IndexView.{Cached};
ghost use Rattle.cow_disk.specs.IndexParts.{place_of};
ghost use Rattle.boot_frames.specs.Claims.{cache_claims};
ghost use Rattle.boot_frames.specs.Lots.{ServesAll};
ghost use Rattle.block_caches.specs.Filling.{blocks_in, disk_seen, disks_seen, disk_at, kept_with, numbered, wanted, AreCaches};
ghost use Rattle.block_caches.specs.Holding.{AreHeld};

use crate::caches::Caches;
use base_words::{CellId, FrameList};
use boot_frames::{Lot, a_cache_lies_in_its_cell, a_lot_holds_its_frames, each_cell_has_its_lot};
use cow_disk::{Disk, Keep, SharedIndex};
use std::alloc::{AllocError, Global};

/// The disk of a guest: the guest's home cell, which of the machine's disks it is, and its blocks.
#[derive(Clone, Copy)]
pub struct HomeDisk<'a> {
    pub cell: CellId,
    pub number: usize,
    pub disk: &'a Disk,
}

/// Keeps a disk's blocks in order, until all frames are used.
fn keep_disk(index: &mut SharedIndex, number: u32, disk: &Disk) -> Result<(), AllocError>
    requires new { All (λ (e : Cached). e.disk < number) index.old.entries }
    ensures { OnOk result (index.new ≡ kept_with (numbered number 0 (blocks_in disk.now)) index.old) }
{
    for block in 0..disk.len() {
        let Some(page) = disk.base_block(block) else {
            unreachable!();
        };
        match index.keep(number, block, page)? {
            Keep::Kept(_) => {}
            Keep::Known => unreachable!(),
            Keep::CacheFull(_) => return Ok(()),
        }
    }
    Ok(())
}

/// The disk of a number, where a guest has it that is at home on the cell.
fn disk_of<'a>(disks: &[HomeDisk<'a>], cell: CellId, number: usize) -> Option<&'a Disk>
    ensures { option_map_or (λ (disk : Bor (List Block)). blocks_in disk.now) result [] ≡ disk_at cell.0 number (disks_seen disks.now) }
{
    for home in disks {
        if home.cell == cell && home.number == number {
            return Some(home.disk);
        }
    }
    None
}

/// The index of a cell over the frames of its cache.
fn index_of(
    alloc: Global,
    cell: CellId,
    frames: FrameList,
    disks: &[HomeDisk],
    numbers: usize,
) -> Result<SharedIndex, AllocError>
    requires { numbers ≤ 2 ^ 32 }
    ensures { IfOk result (λ index. index ≡ kept_with (wanted cell.0 numbers (disks_seen disks.now)) (record { entries = []; frames = map place_of frames })) }
{
    let mut index = SharedIndex::new(alloc, frames)?;
    for number in 0..numbers {
        if let Some(disk) = disk_of(disks, cell, number) {
            keep_disk(&mut index, number as u32, disk)?;
        }
    }
    Ok(index)
}

/// The caches of all cells over the frames of these lots, filled from these disks, whose numbers are below this one. An error is want of
/// memory.
pub fn fill_caches(
    alloc: Global,
    lots: Vec<Lot>,
    disks: &[HomeDisk],
    numbers: usize,
) -> Result<Caches, AllocError>
    requires { numbers ≤ 2 ^ 32 }
    ensures caches { IfOk result (λ c. (table : MadeTable) (layout : Layout) (left : Left) (cache cells : ℕ) → cells ≤ 8 → 0 < layout.frames
        → ServesAll table layout left (cache_claims cache 0 cells) lots.items → AreCaches table.terms layout left cache cells numbers (disks_seen disks.now) c.indexes.items) }
    ensures held { IfOk result (λ c. (table : MadeTable) (layout : Layout) (left : Left) (cache cells : ℕ) → cells ≤ 8 → 0 < layout.frames
        → ServesAll table layout left (cache_claims cache 0 cells) lots.items → AreHeld table c.indexes.items c.holders.items) }
{
    each_cell_has_its_lot();
    a_cache_lies_in_its_cell();
    a_lot_holds_its_frames();
    let mut indexes = Vec::new(alloc);
    let mut holders = Vec::new(alloc);
    for lot in lots {
        let Lot { frames, holder } = lot;
        // A machine has at most eight cells, so this is the place itself.
        let cell = CellId((indexes.len() % 256) as u8);
        indexes.push(index_of(alloc, cell, frames, disks, numbers)?)?;
        holders.push(holder)?;
    }
    Ok(Caches { indexes, holders })
}
