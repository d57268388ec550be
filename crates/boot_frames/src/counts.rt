//! What is left of the machine while claims are admitted, kept in numbers.
ghost use Rattle.std.specs.Prelude.{◌≡◌, true, ◌*◌, ◌<◌, ◌≤◌, IfSome, length, min};
ghost use Rattle.node_frames.specs.Places.{AreNodes};
ghost use Rattle.node_frames.specs.Left.{first_left, node_gives, first_giving, taking};
ghost use Rattle.boot_frames.specs.Chain.{after_frames};
ghost use Rattle.boot_frames.specs.Claims.{order_of, has_of, IsAtHome};
ghost use Rattle.boot_frames.specs.Counts.{counted_left, AreCounted};
ghost use Rattle.node_frames.specs.Layout.{layout_of};

use crate::claims::Claim;
use base_words::{CellId, NodeId, NodeList, Shape};
use node_frames::searches_take_what_is_left;

/// The free frames of each of eight nodes, and the loans of each of eight cells.
#[derive(Clone, Copy)]
pub(crate) struct Counts {
    frames: [u32; 8],
    loans: [u32; 8],
}

impl Counts {
    /// All frames of each node, and all that each cell lends.
    pub(crate) fn all(shape: &Shape, lends: &[u32]) -> Counts
        requires { length lends.now ≤ 8 }
        ensures { counted_left (layout_of shape.now) result ≡ first_left (layout_of shape.now) lends.now }
    {
        let mut loans = [0; 8];
        loans[..lends.len()].copy_from_slice(lends);
        Counts {
            frames: [shape.frames; 8],
            loans,
        }
    }

    // Whether the node gives a frame to whom this is the home cell.
    fn gives(&self, shape: &Shape, home: CellId, node: NodeId) -> bool
        requires cells { AreCounted (layout_of shape.now) }
        requires node { node.0 < shape.now.nodes }
        ensures { result ≡ node_gives (layout_of shape.now) home.0 (counted_left (layout_of shape.now) self.now) node.0 }
    {
        let cell = shape.cells.as_slice()[node.0 as usize];
        let lends = cell == home || self.loans[cell.0 as usize] != 0;
        self.frames[node.0 as usize] != 0 && lends
    }

    // The first node of an order that gives one.
    fn first_giving(&self, shape: &Shape, home: CellId, order: &NodeList) -> Option<NodeId>
        requires cells { AreCounted (layout_of shape.now) }
        requires nodes { AreNodes (layout_of shape.now) order.now }
        ensures first { result ≡ first_giving (layout_of shape.now) home.0 (counted_left (layout_of shape.now) self.now) order.now }
        ensures node { IfSome result (λ node. node.0 < shape.now.nodes) }
        ensures gives { let left = counted_left (layout_of shape.now) self.now in
            IfSome result (λ node. node_gives (layout_of shape.now) home.0 left node.0 ≡ true) }
    {
        for node in order.as_slice() {
            if self.gives(shape, home, *node) {
                return Some(*node);
            }
        }
        None
    }

    // Takes a frame of this node, with a loan where it lies outside the home cell.
    fn take(&mut self, shape: &Shape, home: CellId, node: NodeId)
        requires cells { AreCounted (layout_of shape.now) }
        requires node { node.0 < shape.now.nodes }
        requires gives { node_gives (layout_of shape.now) home.0 (counted_left (layout_of shape.now) self.old) node.0 ≡ true }
        ensures { counted_left (layout_of shape.now) self.new ≡ taking (layout_of shape.now) home.0 (counted_left (layout_of shape.now) self.old) node.0 }
    {
        let cell = shape.cells.as_slice()[node.0 as usize];
        self.frames[node.0 as usize] -= 1;
        if cell != home {
            self.loans[cell.0 as usize] -= 1;
        }
    }

    /// Takes frames for a claim by its order of nodes, until it has them or none is left: how many.
    pub(crate) fn take_frames(&mut self, shape: &Shape, order: &NodeList, claim: Claim) -> u32
        requires cells { AreCounted (layout_of shape.now) }
        requires numbered { shape.now.nodes * shape.now.frames < 4294967296 }
        requires home { IsAtHome (layout_of shape.now) claim.taker }
        requires order { order.now ≡ order_of (layout_of shape.now) claim.taker }
        requires nodes { AreNodes (layout_of shape.now) order.now }
        ensures most { result ≡ min claim.frames (has_of (layout_of shape.now) claim.taker (counted_left (layout_of shape.now) self.old)) }
        ensures left { let left = counted_left (layout_of shape.now) self.old in
            counted_left (layout_of shape.now) self.new ≡ after_frames (layout_of shape.now) claim.taker result left }
    {
        searches_take_what_is_left();
        let home = claim.taker.home(shape);
        for taken in 0..claim.frames {
            match self.first_giving(shape, home, order) {
                Some(node) => self.take(shape, home, node),
                None => return taken,
            }
        }
        claim.frames
    }
}
