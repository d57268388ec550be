//! Searches and orders worked out by hand.
ghost use Rattle.std.specs.Prelude.{◌≡◌, ◌<◌, true, [], ◌∷◌, length};
ghost use Rattle.frame_words.specs.Holders.{IsMade};
ghost use Rattle.node_frames.specs.Places.{FitsShape, AreNodes};
ghost use Rattle.node_frames.specs.Layout.{layout_of};

use crate::node_frames_boots::fill;
use crate::shapes::{order_of, shape_of};
use crate::telling::{gave, must};
use base_words::{CellId, NodeId, NodeList, Shape};
use frame_words::{FrameTable, Holder};
use node_frames::{FindFault, Shown, boot_order, find, release};
use std::alloc::Global;
use std::process::Abort;

const HOME: CellId = CellId(0);

// The number and the generation of the frame that a search finds.
fn found(
    alloc: Global,
    table: &FrameTable,
    holder: &mut Holder,
    shape: &Shape,
    order: &NodeList,
) -> Option<(u32, u32)>
    requires made { IsMade table.now holder.old }
    requires fits { FitsShape table.now (layout_of shape.now) }
    requires nodes { AreNodes (layout_of shape.now) order.now }
    ensures { holder.new.table ≡ holder.old.table }
{
    find(alloc, table, holder, shape, order, HOME)
        .ok()
        .map(|frame| (frame.number.0, frame.generation))
}

// Frame 2 is found with the loan of cell 1, which lends no more until the frame is released.
fn finds_with_a_loan(
    rt: &impl Abort,
    alloc: Global,
    table: &FrameTable,
    holder: &mut Holder,
    shape: &Shape,
    order: &NodeList,
)
    requires made { IsMade table.now holder.old }
    requires fits { FitsShape table.now (layout_of shape.now) }
    requires shape { (shape.now.nodes ≡ 2) × (shape.now.frames ≡ 2) }
    requires nodes { AreNodes (layout_of shape.now) order.now }
    ensures { holder.new.table ≡ holder.old.table }
{
    let Ok(third) = find(alloc, table, holder, shape, order, HOME) else {
        panic!(rt; "frame 2 is free and cell 1 lends one")
    };
    assert!(rt; (third.number.0, third.generation) == (2, 1));
    let Err(FindFault::NoFrame(list)) = find(alloc, table, holder, shape, order, HOME) else {
        panic!(rt; "cell 1 lends no more")
    };
    assert!(rt; list.as_slice() == [Shown::AllHeld, Shown::AtLimit(1)].as_slice());
    release(table, holder, shape, HOME, third.number);
}

// Frames are found by node and by number.
fn finds_in_order(
    rt: &impl Abort,
    alloc: Global,
    table: &FrameTable,
    holder: &mut Holder,
    shape: &Shape,
    order: &NodeList,
)
    requires made { IsMade table.now holder.old }
    requires fits { FitsShape table.now (layout_of shape.now) }
    requires shape { (shape.now.nodes ≡ 2) × (shape.now.frames ≡ 2) }
    requires nodes { AreNodes (layout_of shape.now) order.now }
{
    let first = found(alloc, table, holder, shape, order);
    assert!(rt; first == Some((0, 1)), "frame 0 is free");
    let second = found(alloc, table, holder, shape, order);
    assert!(rt; second == Some((1, 1)), "frame 1 is free");
    finds_with_a_loan(rt, alloc, table, holder, shape, order);
    let again = found(alloc, table, holder, shape, order);
    assert!(rt; again == Some((2, 2)), "the loan is repaid");
}

#[test]
fn finds_by_node_and_number_and_repays(rt: HostRuntime) {
    let shape = shape_of(&rt, rt.alloc(), 2, &[CellId(0), CellId(1)]);
    let order = order_of(&rt, rt.alloc(), &[NodeId(0), NodeId(1)]);
    let (table, mut holder) = gave(&rt, FrameTable::new(rt.alloc(), 4, &[1, 1], 0));
    finds_in_order(&rt, rt.alloc(), &table, &mut holder, &shape, &order);
}

// Whether a search over this order says that each node's frames are held.
fn all_held(
    alloc: Global,
    table: &FrameTable,
    holder: &mut Holder,
    shape: &Shape,
    order: &NodeList,
) -> bool
    requires made { IsMade table.now holder.old }
    requires fits { FitsShape table.now (layout_of shape.now) }
    requires nodes { AreNodes (layout_of shape.now) order.now }
    ensures { holder.new.table ≡ holder.old.table }
{
    match find(alloc, table, holder, shape, order, HOME) {
        Err(FindFault::NoFrame(list)) => list.as_slice() == [Shown::AllHeld].as_slice(),
        _ => false,
    }
}

// Whether two searches at home in cell 1 find a frame, and then two of cell 0 say that each node's frames are held.
fn two_then_none(
    alloc: Global,
    table: &FrameTable,
    holder: &mut Holder,
    shape: &Shape,
    order: &NodeList,
) -> [bool; 4]
    requires made { IsMade table.now holder.old }
    requires fits { FitsShape table.now (layout_of shape.now) }
    requires nodes { AreNodes (layout_of shape.now) order.now }
{
    [
        find(alloc, table, holder, shape, order, CellId(1)).is_ok(),
        find(alloc, table, holder, shape, order, CellId(1)).is_ok(),
        all_held(alloc, table, holder, shape, order),
        all_held(alloc, table, holder, shape, order),
    ]
}

#[test]
fn a_node_whose_frames_are_held_keeps_no_loan(rt: HostRuntime) {
    let shape = shape_of(&rt, rt.alloc(), 2, &[CellId(0), CellId(1)]);
    let order = order_of(&rt, rt.alloc(), &[NodeId(1)]);
    let (table, mut holder) = gave(&rt, FrameTable::new(rt.alloc(), 4, &[1, 1], 7));
    let answers = two_then_none(rt.alloc(), &table, &mut holder, &shape, &order);
    assert!(rt; answers == [true; 4]);
}

// Four nodes, of cells 0, 1, 0 and 1.
fn four_nodes(rt: &impl Abort, alloc: Global) -> Shape
    ensures sizes { (result.nodes ≡ 4) × (result.frames ≡ 1) }
    ensures cells { result.cells ≡ record { 0 = 0 } ∷ record { 0 = 1 } ∷ record { 0 = 0 } ∷ record { 0 = 1 } ∷ [] }
{
    shape_of(rt, alloc, 1, &[CellId(0), CellId(1), CellId(0), CellId(1)])
}

fn is_order(rt: &impl Abort, alloc: Global, shape: &Shape, node: NodeId, want: &[NodeId]) -> bool
    requires { node.0 < shape.now.nodes }
{
    must(rt, boot_order(alloc, shape, node)).as_slice() == want
}

#[test]
fn boot_order_goes_from_near_to_far(rt: HostRuntime) {
    let shape = four_nodes(&rt, rt.alloc());
    let [a, b, c, d] = [NodeId(0), NodeId(1), NodeId(2), NodeId(3)];
    assert!(rt; is_order(&rt, rt.alloc(), &shape, a, &[a, c, b, d]));
    assert!(rt; is_order(&rt, rt.alloc(), &shape, c, &[c, a, b, d]));
    assert!(rt; is_order(&rt, rt.alloc(), &shape, d, &[d, b, a, c]));
}

// How many frames a guest at home on a node gets of the pages that it wants.
fn guest_gets(
    rt: &impl Abort,
    alloc: Global,
    table: &FrameTable,
    holder: &mut Holder,
    shape: &Shape,
    home: (NodeId, CellId),
    pages: u32,
) -> u32
    requires made { IsMade table.now holder.old }
    requires fits { FitsShape table.now (layout_of shape.now) }
    requires home { home.0.0 < shape.now.nodes }
    requires alone { holder.old.view.alone ≡ true }
    ensures alone { holder.new.view.alone ≡ true }
    ensures same { holder.new.table ≡ holder.old.table }
{
    let (node, cell) = home;
    let order = gave(rt, boot_order(alloc, shape, node));
    gave(
        rt,
        fill(alloc, table, holder, shape, &order, node, cell, pages),
    )
}

// How many frames a first guest of node 0 and then a second of node 1 get of the pages that they want.
fn both_get(
    rt: &impl Abort,
    alloc: Global,
    table: &FrameTable,
    holder: &mut Holder,
    shape: &Shape,
    first: u32,
    second: u32,
) -> (u32, u32)
    requires made { IsMade table.now holder.old }
    requires fits { FitsShape table.now (layout_of shape.now) }
    requires nodes { 1 < shape.now.nodes }
    requires alone { holder.old.view.alone ≡ true }
{
    let (near, far) = ((NodeId(0), CellId(0)), (NodeId(1), CellId(1)));
    let one = guest_gets(rt, alloc, table, holder, shape, near, first);
    let two = guest_gets(rt, alloc, table, holder, shape, far, second);
    (one, two)
}

// The same of four nodes, where the cells 0 and 1 lend so many.
fn two_guests(rt: &impl Abort, alloc: Global, lends: &[u32], first: u32, second: u32) -> (u32, u32)
    requires { length lends.now ≡ 2 }
{
    let shape = four_nodes(rt, alloc);
    let (table, mut holder) = gave(rt, FrameTable::new(alloc, 4, lends, 0));
    both_get(rt, alloc, &table, &mut holder, &shape, first, second)
}

#[test]
fn guests_get_what_is_left_in_order(rt: HostRuntime) {
    assert!(rt; two_guests(&rt, rt.alloc(), &[0, 0], 3, 3) == (2, 2));
    assert!(rt; two_guests(&rt, rt.alloc(), &[0, 1], 3, 3) == (3, 1));
    assert!(rt; two_guests(&rt, rt.alloc(), &[0, 9], 9, 1) == (4, 0));
    assert!(rt; two_guests(&rt, rt.alloc(), &[1, 0], 1, 9) == (1, 3));
}
