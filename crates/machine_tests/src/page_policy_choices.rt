//! Choices worked out by hand, for three pages and three nodes.
ghost use Rattle.std.specs.Prelude.{◌<◌};
ghost use Rattle.page_policy.specs.Pages.{AreCounters};

use crate::telling::{gave, must};
use page_policy::Choice::{Migrate, Replicate, Stay};
use page_policy::{Choice, Counters, NodeId, Policy, Ppn};
use std::alloc::Global;
use std::process::Abort;

const STAYS: [Choice; 3] = [Stay, Stay, Stay];

/// The misses of page 1 by node, its mark, both thresholds, and what is chosen for each node.
type Row = ([u8; 3], bool, u32, u32, [Choice; 3]);

/// So many misses of page 1 by a node.
fn miss(counters: &mut Counters, node: NodeId, times: u8)
    requires node { node.0 < 3 }
    requires counters { AreCounters 3 3 counters.old }
    ensures { AreCounters 3 3 counters.new }
{
    for _ in 0..times {
        counters.note(Ppn(1), node, true, false);
    }
}

/// These misses of page 1, which is then written or not.
fn with_misses(rt: &impl Abort, alloc: Global, misses: [u8; 3], written: bool) -> Counters
    ensures { AreCounters 3 3 result }
{
    let mut counters = gave(rt, Counters::new(alloc, 3, 3));
    let [first, second, third] = misses;
    miss(&mut counters, NodeId(0), first);
    miss(&mut counters, NodeId(1), second);
    miss(&mut counters, NodeId(2), third);
    counters.note(Ppn(1), NodeId(0), false, written);
    counters
}

/// What is chosen for a page after a miss of each node.
fn choices(counters: &Counters, page: Ppn, policy: &Policy) -> [Choice; 3]
    requires page { page.0 < 3 }
    requires counters { AreCounters 3 3 counters.now }
{
    [
        counters.decide(page, NodeId(0), policy),
        counters.decide(page, NodeId(1), policy),
        counters.decide(page, NodeId(2), policy),
    ]
}

#[test]
fn choices_by_misses_and_mark(rt: HostRuntime) {
    let rows: [Row; 13] = [
        ([0, 0, 0], false, 1, 1, STAYS), // no miss
        ([3, 0, 0], false, 3, 0, [Migrate(NodeId(0)), Stay, Stay]), // as many as the threshold
        ([2, 0, 0], false, 3, 0, STAYS), // one less
        ([3, 1, 0], false, 3, 0, STAYS), // another node missed it
        ([1, 0, 3], false, 3, 0, STAYS), // a node before it did
        ([3, 1, 0], false, 3, 2, [Replicate(NodeId(0)), Stay, Stay]), // a copy then
        (
            [3, 2, 4],
            false,
            3,
            2,
            [
                Replicate(NodeId(0)),
                Replicate(NodeId(1)),
                Replicate(NodeId(2)),
            ],
        ), // each reaches 2
        ([3, 2, 4], true, 3, 2, STAYS), // a page that is written gets no copy
        ([0, 0, 3], true, 3, 2, [Stay, Stay, Migrate(NodeId(2))]), // but is migrated
        ([0, 0, 3], false, 0, 3, [Stay, Stay, Replicate(NodeId(2))]), // 0 is never reached
        ([0, 0, 3], false, 4, 3, [Stay, Stay, Replicate(NodeId(2))]), // nor is 4
        ([0, 3, 0], false, 0, 0, STAYS), // neither threshold
        ([0, 1, 0], false, 1, 1, [Stay, Migrate(NodeId(1)), Stay]), // migration comes first
    ];
    for (misses, written, migrate, replicate, wanted) in rows {
        let counters = with_misses(&rt, rt.alloc(), misses, written);
        let policy = Policy { migrate, replicate };
        assert!(rt; choices(&counters, Ppn(1), &policy) == wanted);
        assert!(rt; choices(&counters, Ppn(0), &policy) == STAYS);
        assert!(rt; choices(&counters, Ppn(2), &policy) == STAYS);
    }
}

#[test]
fn a_page_starts_anew(rt: HostRuntime) {
    let policy = Policy {
        migrate: 0,
        replicate: 1,
    };
    let mut counters = with_misses(&rt, rt.alloc(), [3, 2, 4], true);
    counters.note(Ppn(2), NodeId(2), true, false);
    counters.restart(Ppn(1));
    assert!(rt; choices(&counters, Ppn(1), &policy) == STAYS);
    let kept = [Stay, Stay, Replicate(NodeId(2))];
    assert!(rt; choices(&counters, Ppn(2), &policy) == kept);
    counters.note(Ppn(1), NodeId(0), true, false); // the mark is off
    let first = [Replicate(NodeId(0)), Stay, Stay];
    assert!(rt; choices(&counters, Ppn(1), &policy) == first);
}

#[test]
fn a_miss_may_be_a_store(rt: HostRuntime) {
    let mut counters = with_misses(&rt, rt.alloc(), [0, 0, 0], false);
    counters.note(Ppn(1), NodeId(1), true, true);
    let copies = Policy {
        migrate: 0,
        replicate: 1,
    };
    assert!(rt; choices(&counters, Ppn(1), &copies) == STAYS);
    let moves = Policy {
        migrate: 1,
        replicate: 0,
    };
    let wanted = [Stay, Migrate(NodeId(1)), Stay];
    assert!(rt; choices(&counters, Ppn(1), &moves) == wanted);
}

#[test]
fn no_pages_and_no_nodes(rt: HostRuntime) {
    must(&rt, Counters::new(rt.alloc(), 0, 0));
    must(&rt, Counters::new(rt.alloc(), 0, 255));
    must(&rt, Counters::new(rt.alloc(), 5, 0));
}
