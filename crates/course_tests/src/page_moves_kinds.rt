//! A page through each kind of move, with values worked out by hand. Of four nodes of 16 frames the second begins at frame 16.
use crate::page_moves_rig::{
    acknowledges, begins, breaks, collapses, finishes, four_nodes, frame, gives_up, is_on,
    is_refused, is_taken, lets_go, maps, shared, stores, table, takes, tells,
};
use crate::telling::{gave, same};
use base_words::{CellId, CellSet, FrameNo, MoveKind, NodeId, Ppn, ProcId};
use page_moves::{first_ready, first_waiting};
use pmap_table::Pmap;
use shootdown::tokens;
use std::alloc::Global;
use std::process::Abort;

/// A table of one page with its master on frame 5 and replicas on frames 20 and 40.
fn replicated(rt: &impl Abort, alloc: Global) -> Pmap {
    let mut pmap = table(rt, alloc);
    for number in [20, 40] {
        begins(rt, &mut pmap, MoveKind::Replicate, frame(rt, alloc, number));
        finishes(rt, &mut pmap, &[]);
    }
    pmap
}

#[test]
fn a_store_before_the_acknowledgement_moves_with_the_page(rt: HostRuntime) {
    let alloc = rt.alloc();
    let (tokens, _seats) = gave(&rt, tokens(alloc, 2, 1));
    let mut tokens = tokens.into_vec();
    let mut pmap = table(&rt, alloc);
    maps(&rt, &mut pmap, 1);
    begins(&rt, &mut pmap, MoveKind::Migrate, frame(&rt, alloc, 30));
    assert!(rt; first_waiting(&pmap, ProcId(0)).is_none());
    assert!(rt; first_ready(&pmap).is_none());
    stores(&rt, &mut pmap, 0x5A);
    assert!(rt; tokens.len() == 2);
    acknowledges(&rt, &mut pmap, &mut tokens[1]);
    finishes(&rt, &mut pmap, &[5]);
    is_on(&rt, &pmap, 30, [5, 0x5A], 0, 0);
}

#[test]
fn each_kind_leaves_its_frames(rt: HostRuntime) {
    let alloc = rt.alloc();
    let mut pmap = replicated(&rt, alloc);
    is_on(&rt, &pmap, 5, [5, 0], 2, 0);
    collapses(&rt, &mut pmap);
    finishes(&rt, &mut pmap, &[40, 20]);
    is_taken(&rt, &mut pmap, shared(&rt, alloc, 60));
    takes(&rt, &mut pmap, &[]);
    is_on(&rt, &pmap, 60, [60, 0], 0, 1); // the guest's own frame is a spare
    breaks(&rt, &mut pmap);
    finishes(&rt, &mut pmap, &[60]);
    is_on(&rt, &pmap, 5, [60, 0], 0, 0);
    begins(&rt, &mut pmap, MoveKind::GiveShared, frame(&rt, alloc, 70));
    finishes(&rt, &mut pmap, &[]);
    is_on(&rt, &pmap, 5, [60, 0], 0, 1); // with frame 70 as the spare
    is_taken(&rt, &mut pmap, shared(&rt, alloc, 61));
    lets_go(&rt, &mut pmap, &[61]);
    is_on(&rt, &pmap, 5, [60, 0], 0, 1);
    gives_up(&rt, &mut pmap, &[70, 5]);
}

#[test]
fn moves_are_told_and_given_up(rt: HostRuntime) {
    let alloc = rt.alloc();
    let mut pmap = table(&rt, alloc);
    maps(&rt, &mut pmap, 3);
    begins(&rt, &mut pmap, MoveKind::Migrate, frame(&rt, alloc, 30));
    tells(&rt, &mut pmap, MoveKind::Migrate);
    gives_up(&rt, &mut pmap, &[30, 5]);
    for kind in [MoveKind::Replicate, MoveKind::GiveShared] {
        let mut pmap = replicated(&rt, alloc);
        maps(&rt, &mut pmap, 3);
        begins(&rt, &mut pmap, kind, frame(&rt, alloc, 30));
        tells(&rt, &mut pmap, kind);
        gives_up(&rt, &mut pmap, &[30, 40, 20, 5]);
    }
    let mut pmap = replicated(&rt, alloc);
    maps(&rt, &mut pmap, 3);
    collapses(&rt, &mut pmap);
    tells(&rt, &mut pmap, MoveKind::Collapse);
    gives_up(&rt, &mut pmap, &[40, 20, 5]);
    let mut pmap = replicated(&rt, alloc);
    maps(&rt, &mut pmap, 3);
    is_taken(&rt, &mut pmap, shared(&rt, alloc, 30));
    tells(&rt, &mut pmap, MoveKind::TakeShared);
    gives_up(&rt, &mut pmap, &[30, 40, 20, 5]);
}

#[test]
fn a_node_reaches_the_nearest_frame(rt: HostRuntime) {
    let alloc = rt.alloc();
    let pmap = replicated(&rt, alloc);
    let shape = four_nodes(&rt, alloc);
    let none = CellSet::empty();
    let second = none.with(CellId(1));
    // the master is on node 0, the replicas are on nodes 1 and 2, and nodes 2 and 3 are the second cell
    let rows = [
        (0, none, 5),
        (1, none, 20),
        (2, none, 40),
        (3, none, 40),
        (0, second, 5),
        (1, second, 20),
        (2, second, 20),
        (3, second, 20),
    ];
    for (node, dead, number) in rows {
        assert!(rt; 0 < pmap.len());
        let frame = pmap.nearest(Ppn(0), NodeId(node), &shape, dead);
        same(&rt, frame, FrameNo(number), ("node", node));
        assert!(rt;
            pmap.word_of(Ppn(0), frame, 0) == 5,
            "each replica is a copy of the page"
        );
    }
}

/// Of two frames as near the one on the lower node is taken, and a node has a frame just where one lies on it.
#[test]
fn of_frames_as_near_the_lower_nodes_is_taken(rt: HostRuntime) {
    let alloc = rt.alloc();
    let mut pmap = table(&rt, alloc);
    begins(&rt, &mut pmap, MoveKind::Replicate, frame(&rt, alloc, 40));
    finishes(&rt, &mut pmap, &[]);
    let shape = four_nodes(&rt, alloc);
    for (node, number, is_there) in [(0, 5, true), (1, 5, false), (2, 40, true), (3, 40, false)] {
        assert!(rt; 0 < pmap.len());
        let frame = pmap.nearest(Ppn(0), NodeId(node), &shape, CellSet::empty());
        same(&rt, frame, FrameNo(number), ("node", node));
        assert!(rt; pmap.is_on(Ppn(0), NodeId(node), &shape) == is_there);
    }
}

#[test]
fn a_page_that_moves_takes_no_other_move(rt: HostRuntime) {
    let alloc = rt.alloc();
    let mut pmap = table(&rt, alloc);
    maps(&rt, &mut pmap, 31);
    begins(&rt, &mut pmap, MoveKind::Replicate, frame(&rt, alloc, 20));
    is_refused(&rt, &mut pmap, frame(&rt, alloc, 40), 31);
}
