//! Disks over one base of three blocks, whose first bytes are 10, 20 and 30.
ghost use Rattle.std.specs.Prelude.{◌≡◌, ◌<◌, ◌^◌, length};
ghost use Rattle.std.specs.Arc.{arc_value};

use crate::telling::{gave, same};
use base_words::{Blocks, Page};
use cow_disk::{Disk, Wrote};
use std::alloc::Global;
use std::process::Abort;
use std::sync::Arc;

/// A page of zeros but for its first byte.
fn page(rt: &impl Abort, alloc: Global, first: u8) -> Box<Page> {
    let mut page = gave(rt, Page::zeroed(alloc));
    page.set_byte(0, first);
    page
}

/// The base.
fn three(rt: &impl Abort, alloc: Global) -> Arc<Blocks>
    ensures { length (arc_value result) ≡ 3 }
{
    let pages = gave(
        rt,
        vec![in alloc;
            page(rt, alloc, 10),
            page(rt, alloc, 20),
            page(rt, alloc, 30),
        ],
    );
    gave(rt, Arc::new(alloc, Blocks::from_vec(pages)))
}

/// The first byte of a block as it is read.
fn first(disk: &Disk, block: u32) -> Option<u8> {
    Some(disk.read_block(block)?.byte_at(0))
}

/// A block begins with this byte as it is read, or is not there.
fn begins(rt: &impl Abort, disk: &Disk, block: u32, byte: Option<u8>) {
    same(rt, first(disk, block), byte, ("block", block));
}

/// A block begins with this byte as it was given, or is not there; and whether the disk wrote it.
fn was_given(rt: &impl Abort, disk: &Disk, block: u32, byte: Option<u8>, own: bool) {
    let given = disk.base_block(block).map(|page| page.byte_at(0));
    same(rt, given, byte, ("block", block));
    same(rt, disk.is_private(block), own, ("block", block));
}

#[test]
fn a_write_is_seen_by_its_own_disk_alone(rt: HostRuntime) {
    let base = three(&rt, rt.alloc());
    let mut one = Disk::new(rt.alloc(), Some(gave(&rt, Arc::try_clone(&base))));
    let two = Disk::new(rt.alloc(), Some(base));
    assert!(rt; one.len() == 3);
    let written = page(&rt, rt.alloc(), 99);
    assert!(rt; gave(&rt, one.write_block(1, &written)) == Wrote::Wrote);
    // the block, as the first disk and as the second read it, as it was given, and whether the first wrote it
    let rows = [
        (0, Some(10), Some(10), Some(10), false),
        (1, Some(99), Some(20), Some(20), true),
        (2, Some(30), Some(30), Some(30), false),
        (3, None, None, None, false),
        (u32::MAX, None, None, None, false),
    ];
    for (block, mine, theirs, given, own) in rows {
        begins(&rt, &one, block, mine);
        begins(&rt, &two, block, theirs);
        was_given(&rt, &one, block, given, own);
        was_given(&rt, &two, block, given, false);
    }
}

#[test]
fn the_last_write_stands(rt: HostRuntime) {
    let mut disk = Disk::new(rt.alloc(), Some(three(&rt, rt.alloc())));
    for byte in [1, 2, 3] {
        let written = page(&rt, rt.alloc(), byte);
        assert!(rt; gave(&rt, disk.write_block(2, &written)) == Wrote::Wrote);
        begins(&rt, &disk, 2, Some(byte));
    }
    let written = page(&rt, rt.alloc(), 4);
    assert!(rt; gave(&rt, disk.write_block(0, &written)) == Wrote::Wrote);
    for (block, byte) in [(0, 4), (1, 20), (2, 3)] {
        begins(&rt, &disk, block, Some(byte));
    }
}

#[test]
fn there_is_no_block_past_the_last(rt: HostRuntime) {
    let written = page(&rt, rt.alloc(), 7);
    let mut none = Disk::new(rt.alloc(), None);
    assert!(rt; none.len() == 0);
    assert!(rt; gave(&rt, none.write_block(0, &written)) == Wrote::NoBlock);
    let mut disk = Disk::new(rt.alloc(), Some(three(&rt, rt.alloc())));
    for block in [3, u32::MAX] {
        assert!(rt; gave(&rt, disk.write_block(block, &written)) == Wrote::NoBlock);
        begins(&rt, &disk, block, None);
    }
    begins(&rt, &disk, 2, Some(30));
}
