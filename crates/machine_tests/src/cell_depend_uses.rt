//! The plain count and the counters, by values worked out by hand.
ghost use Rattle.std.specs.Prelude.{◌<◌, ◌+◌, ◌^◌, All, length};
ghost use Rattle.base_words.specs.declared.ids.FrameNo.{FrameNo};

use crate::telling::{gave, same};
use base_words::{CellId, FrameNo, Sequence, Shape};
use cell_depend::{Uses, count_from_rows};
use std::alloc::Global;
use std::process::Abort;

/// The counts of cells 0 and 1 on a machine of three nodes of four frames: the second node is cell 0's, the others are
/// cell 1's.
fn counts(rt: &impl Abort, alloc: Global, frames: &[FrameNo], loaded: &[CellId]) -> (u64, u64)
    requires frames { All (λ (f : FrameNo). f.0 < 12) frames.now }
    requires few { length frames.now + length loaded.now < 2 ^ 64 }
{
    let shape = Shape {
        nodes: 3,
        frames: 4,
        cells: Sequence::from_vec(gave(rt, vec![in alloc; CellId(1), CellId(0), CellId(1)])),
    };
    (
        count_from_rows(frames, loaded, &shape, CellId(0)),
        count_from_rows(frames, loaded, &shape, CellId(1)),
    )
}

/// These are the counts of cells 0 and 1.
fn count(rt: &impl Abort, alloc: Global, frames: &[FrameNo], loaded: &[CellId], want: (u64, u64))
    requires frames { All (λ (f : FrameNo). f.0 < 12) frames.now }
    requires few { length frames.now + length loaded.now < 2 ^ 64 }
{
    same(
        rt,
        counts(rt, alloc, frames, loaded),
        want,
        (frames, loaded),
    );
}

#[test]
fn rows_are_counted_by_cell(rt: HostRuntime) {
    let alloc = rt.alloc();
    let (zero, one) = (CellId(0), CellId(1));
    count(&rt, alloc, &[], &[], (0, 0));
    // the last frame of a node, and the first one of the next
    count(&rt, alloc, &[FrameNo(3)], &[], (0, 1));
    count(&rt, alloc, &[FrameNo(4)], &[], (1, 0));
    let four = [FrameNo(3), FrameNo(4), FrameNo(8), FrameNo(11)];
    count(&rt, alloc, &four, &[], (1, 3));
    count(&rt, alloc, &[], &[one, zero, one], (1, 2));
    count(&rt, alloc, &[FrameNo(7), FrameNo(0)], &[zero, zero], (3, 1));
}

#[test]
fn a_cell_is_used_while_something_of_it_is_kept(rt: HostRuntime) {
    let mut uses = gave(&rt, Uses::new(rt.alloc(), 2));
    let (zero, one) = (CellId(0), CellId(1));
    assert!(rt; !uses.uses(zero) && !uses.uses(one), "at the start");
    uses.add_frame(one);
    uses.add_frame(one);
    uses.add_vcpu(zero);
    assert!(rt; uses.uses(zero), "by a virtual processor alone");
    assert!(rt; uses.uses(one), "by frames alone");
    uses.drop_frame(one);
    assert!(rt; uses.uses(one), "one of two frames is left");
    uses.drop_frame(one);
    assert!(rt; !uses.uses(one));
    uses.drop_vcpu(zero);
    assert!(rt; !uses.uses(zero));
}

#[test]
fn all_frames_leave_at_once(rt: HostRuntime) {
    let mut uses = gave(&rt, Uses::new(rt.alloc(), 3));
    uses.add_frame(CellId(0));
    uses.add_frame(CellId(0));
    uses.add_frame(CellId(1));
    uses.add_vcpu(CellId(1));
    uses.drop_frames();
    for (cell, used) in [(0u8, false), (1, true), (2, false)] {
        same(&rt, uses.uses(CellId(cell)), used, ("cell", cell));
    }
    uses.add_frame(CellId(0));
    assert!(rt; uses.uses(CellId(0)), "one is taken again");
    uses.drop_frame(CellId(0));
    assert!(rt; !uses.uses(CellId(0)), "and was the only one");
}

#[test]
fn a_cell_that_failed_stays_so(rt: HostRuntime) {
    let mut uses = gave(&rt, Uses::new(rt.alloc(), 4));
    assert!(rt; uses.dead().is_empty());
    uses.mark_dead(CellId(3));
    uses.mark_dead(CellId(0));
    uses.mark_dead(CellId(3));
    uses.add_frame(CellId(3));
    for (cell, failed) in [(0u8, true), (1, false), (2, false), (3, true)] {
        same(&rt, uses.dead().has(CellId(cell)), failed, ("cell", cell));
    }
    assert!(rt; !uses.uses(CellId(0)), "to have failed is no use");
}
