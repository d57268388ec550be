//! Two callers on two pages, in one thread. The expected values are worked out by hand.
ghost use Rattle.std.specs.Prelude.{◌≡◌};
ghost use Rattle.page_slots.specs.Slots.{CallerState, IsOf};

use crate::telling::{gave, must, same};
use base_words::{GuestId, Ppn, VcpuId};
use outside_io::{Gate, GatePoint};
use page_slots::{Caller, CallerList, Entry, PageSlots, SlotAccess, close};
use std::process::Abort;
use std::sync::Wait;
use std::sync::atomic::{AtomicU64, Ordering};

/// Notes where it is passed: the caller, and a hundred for each access before.
#[derive(Drop)]
struct Noting {
    count: AtomicU64,
    points: [AtomicU64; 8],
}

impl Gate for Noting {
    fn pass(&self, at: GatePoint) {
        let place = self.count.fetch_add(1, Ordering::SeqCst);
        let Some(point) = self.points.get(place as usize) else {
            return;
        };
        if at.guest == GuestId(0) && at.vcpu == VcpuId(0) {
            let accesses = at.turn.wrapping_mul(100);
            point.store(
                accesses.wrapping_add(u64::from(at.processor.0)),
                Ordering::SeqCst,
            );
        }
    }

    fn is_free(&self) -> bool {
        false
    }
}

// Seven accesses. The answers of the loads, in order.
fn play<R: Abort + Wait, G: Gate>(
    rt: &R,
    slots: &PageSlots,
    zero: &mut Caller,
    one: &mut Caller,
    gate: &G,
) -> [u32; 4]
    requires made { IsOf slots.now zero.old × IsOf slots.now one.old }
    requires pages { slots.now.pages ≡ 2 }
    ensures zero { (zero.new.slots ≡ zero.old.slots) × (zero.new.number ≡ zero.old.number) }
    ensures one { (one.new.slots ≡ one.old.slots) × (one.new.number ≡ one.old.number) }
{
    must(rt, slots.store(rt, zero, Ppn(0), 0, 5, gate));
    let first = must(rt, slots.load(rt, one, Ppn(0), 0, gate));
    let blank = must(rt, slots.load(rt, one, Ppn(0), 4, gate));
    must(rt, slots.store(rt, one, Ppn(1), 4092, 4_294_967_295, gate));
    let greatest = must(rt, slots.load(rt, zero, Ppn(1), 4092, gate));
    must(rt, slots.store(rt, one, Ppn(0), 0, 6, gate));
    let second = must(rt, slots.load(rt, zero, Ppn(0), 0, gate));
    [first, blank, greatest, second]
}

fn loaded(caller: u8, page: u32, offset: u32, value: u32) -> Entry {
    let access = SlotAccess {
        page: Ppn(page),
        offset,
        value,
        store: false,
    };
    Entry { caller, access }
}

fn stored(caller: u8, page: u32, offset: u32, value: u32) -> Entry {
    let access = SlotAccess {
        page: Ppn(page),
        offset,
        value,
        store: true,
    };
    Entry { caller, access }
}

#[test]
fn histories_have_each_access(rt: HostRuntime) {
    let gate = Noting {
        count: AtomicU64::new(0),
        points: [
            AtomicU64::new(9999),
            AtomicU64::new(9999),
            AtomicU64::new(9999),
            AtomicU64::new(9999),
            AtomicU64::new(9999),
            AtomicU64::new(9999),
            AtomicU64::new(9999),
            AtomicU64::new(9999),
        ],
    };
    let (slots, callers) = gave(&rt, PageSlots::new(rt.alloc(), 2, 2));
    let mut callers = callers.into_vec();
    let (Some(mut one), Some(mut zero)) = (callers.pop(), callers.pop()) else {
        panic!(rt; "there are two callers")
    };
    assert!(rt; (zero.number(), one.number()) == (0, 1));
    let answers = play(&rt, &slots, &mut zero, &mut one, &gate);
    assert!(rt; answers == [5, 0, 4_294_967_295, 6]);
    for (place, told) in [0, 1, 101, 201, 100, 301, 200, 9999].iter().enumerate() {
        let point = gate.points[place].load(Ordering::SeqCst);
        same(&rt, point, *told, ("the point of access", place));
    }
    gave(&rt, callers.push(zero));
    gave(&rt, callers.push(one));
    let histories = close(slots, CallerList::from_vec(callers));
    let expected: [&[Entry]; 2] = [
        &[
            stored(0, 0, 0, 5),
            loaded(1, 0, 0, 5),
            loaded(1, 0, 4, 0),
            stored(1, 0, 0, 6),
            loaded(0, 0, 0, 6),
        ],
        &[
            stored(1, 1, 4092, 4_294_967_295),
            loaded(0, 1, 4092, 4_294_967_295),
        ],
    ];
    assert!(rt; histories.len() == 2);
    for (history, wanted) in histories.as_slice().iter().zip(expected) {
        assert!(rt; history.len() == wanted.len());
        for (entry, want) in history.iter().zip(wanted) {
            assert!(rt; *entry == *want);
        }
    }
}
