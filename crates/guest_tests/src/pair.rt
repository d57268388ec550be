//! Two guests, each with a processor of its own, and what they share.
ghost use Rattle.std.specs.Prelude.{◌≡◌, IsSome};
ghost use Rattle.std.specs.Bool.{OnTrue};
ghost use Rattle.frame_words.specs.Holders.{IsMade};
ghost use Rattle.guest_core.specs.GuestView.{AreOf};
ghost use Rattle.wire_queue.specs.PassLists.{IsListOf, taking_from};

use crate::lane::Lane;
use base_words::{CellId, FrameNo, GuestId, NodeId, Ppn, VcpuId};
use block_caches::Caches;
use frame_words::{FrameTable, Holder, Took, take};
use guest_core::{Asked, Fate, GuestRecord, Loaded, Packeted, Ready, Resources, Turn};
use std::alloc::{AllocError, Global};
use std::process::Abort;
use std::sync::Wait;
use wire_queue::{PassList, WirePacket, Wires};

/// Which of the two.
#[derive(Clone, Copy, Debug, PartialEq, Eq)]
pub(crate) enum Side {
    First,
    Second,
}

/// The two guests, the table of their frames, the wires between them, and the blocks that they share; a further holder, and how many frames
/// there are.
#[derive(Drop)]
pub(crate) struct Pair {
    pub(crate) table: FrameTable,
    pub(crate) wires: Wires,
    pub(crate) caches: Caches,
    pub(crate) holder: Holder,
    pub(crate) frames: u32,
    pub(crate) first: Lane,
    pub(crate) second: Lane,
    ghost made: { IsMade table holder },
    ghost frames_are: { table.terms.frames ≡ frames },
    ghost first_of: { AreOf (record { table = table; wires = wires; indexes = caches.indexes.items }) first.guest },
    ghost second_of: { AreOf (record { table = table; wires = wires; indexes = caches.indexes.items }) second.guest },
}

impl Pair {
    /// The frame in which the first cell keeps the first block of the first disk, if it does.
    pub(crate) fn kept_frame(&self) -> Option<FrameNo> {
        let index = self.caches.indexes.first()?;
        Some(index.find(0, 0)?.number)
    }

    /// How often a frame is held, as another holder sees it; none where it is free or spent, or no frame of the machine.
    pub(crate) fn holds_of(&mut self, frame: FrameNo) -> Option<u32> {
        if frame.0 >= self.frames {
            return None;
        }
        match take(&self.table, &mut self.holder, frame) {
            Took::Held(seen) => Some((seen % (1 << 32)) as u32),
            Took::Took(_) | Took::Spent(_) => None,
        }
    }

    /// Loads the virtual processor of a guest on its processor.
    pub(crate) fn load(&mut self, side: Side) -> Result<Loaded, AllocError> {
        match side {
            Side::First => self.first.load(VcpuId(0)),
            Side::Second => self.second.load(VcpuId(0)),
        }
    }

    /// Unloads it.
    pub(crate) fn unload(&mut self, side: Side) {
        match side {
            Side::First => self.first.unload(),
            Side::Second => self.second.unload(),
        }
    }

    /// A turn of it.
    pub(crate) fn turn<R: Wait>(
        &mut self,
        rt: &R,
        alloc: Global,
        side: Side,
    ) -> Result<Turn, AllocError> {
        let resources = Resources {
            table: &self.table,
            wires: &self.wires,
            indexes: &self.caches.indexes,
        };
        match side {
            Side::First => self.first.turn(rt, alloc, &resources),
            Side::Second => self.second.turn(rt, alloc, &resources),
        }
    }

    /// Asks for a migration of a page of a guest.
    pub(crate) fn ask(
        &mut self,
        alloc: Global,
        side: Side,
        page: Ppn,
        node: NodeId,
    ) -> Result<Asked, AllocError> {
        let resources = Resources {
            table: &self.table,
            wires: &self.wires,
            indexes: &self.caches.indexes,
        };
        match side {
            Side::First => self.first.ask(alloc, page, node, &resources),
            Side::Second => self.second.ask(alloc, page, node, &resources),
        }
    }

    /// Asks for a replica of a page of a guest.
    pub(crate) fn ask_for_replica(
        &mut self,
        alloc: Global,
        side: Side,
        page: Ppn,
        node: NodeId,
    ) -> Result<Asked, AllocError> {
        let resources = Resources {
            table: &self.table,
            wires: &self.wires,
            indexes: &self.caches.indexes,
        };
        match side {
            Side::First => self.first.ask_for_replica(alloc, page, node, &resources),
            Side::Second => self.second.ask_for_replica(alloc, page, node, &resources),
        }
    }

    /// A cell fails for a guest.
    pub(crate) fn fail(&mut self, side: Side, cell: CellId) -> Result<Fate, AllocError> {
        let resources = Resources {
            table: &self.table,
            wires: &self.wires,
            indexes: &self.caches.indexes,
        };
        match side {
            Side::First => self.first.fail(cell, &resources),
            Side::Second => self.second.fail(cell, &resources),
        }
    }

    /// Asks for what is due by the policy on a guest's processor.
    pub(crate) fn ask_due(
        &mut self,
        alloc: Global,
        side: Side,
    ) -> Result<Option<Asked>, AllocError> {
        let resources = Resources {
            table: &self.table,
            wires: &self.wires,
            indexes: &self.caches.indexes,
        };
        match side {
            Side::First => self.first.ask_due(alloc, &resources),
            Side::Second => self.second.ask_due(alloc, &resources),
        }
    }

    /// Ends the move of a guest's page where nobody waits for it.
    pub(crate) fn finish_ready(&mut self, side: Side, page: Ppn) -> Ready {
        let resources = Resources {
            table: &self.table,
            wires: &self.wires,
            indexes: &self.caches.indexes,
        };
        match side {
            Side::First => self.first.finish_ready(page, &resources),
            Side::Second => self.second.finish_ready(page, &resources),
        }
    }

    /// Lets a packet come to a guest.
    pub(crate) fn packet_in<R: Wait>(
        &mut self,
        rt: &R,
        alloc: Global,
        side: Side,
    ) -> Result<Packeted, AllocError> {
        let resources = Resources {
            table: &self.table,
            wires: &self.wires,
            indexes: &self.caches.indexes,
        };
        match side {
            Side::First => self.first.packet_in(rt, alloc, &resources),
            Side::Second => self.second.packet_in(rt, alloc, &resources),
        }
    }
}

/// Whether there is a wire from another guest.
fn has_wire(passes: &PassList, from: GuestId) -> bool
    ensures { OnTrue result (IsSome (taking_from passes.now from.0)) }
{
    match passes.takes.get(from.0 as usize) {
        Some(Some(_)) => true,
        _ => false,
    }
}

/// What a guest left, and its ends of the wires.
#[derive(Drop)]
pub(crate) struct Left {
    pub(crate) record: GuestRecord,
    wires: Wires,
    passes: PassList,
    ghost list: { IsListOf wires passes },
}

impl Left {
    /// The next packet that another guest put on its wire to this one; none where there is none, or no such guest.
    pub(crate) fn next_from<R: Wait>(&mut self, rt: &R, from: GuestId) -> Option<WirePacket> {
        if !has_wire(&self.passes, from) {
            return None;
        }
        self.passes.receive(rt, &self.wires, from)
    }
}

impl Pair {
    /// What both guests leave. Who hasn't ended is ended as at the end of a plan.
    pub(crate) fn finish(self, rt: &impl Abort) -> (GuestRecord, Left) {
        let Pair {
            table,
            wires,
            caches,
            holder: _,
            frames: _,
            first,
            second,
        } = self;
        let resources = Resources {
            table: &table,
            wires: &wires,
            indexes: &caches.indexes,
        };
        let (record, _) = first.finish(rt, &resources);
        let (other, passes) = second.finish(rt, &resources);
        (
            record,
            Left {
                record: other,
                wires,
                passes,
            },
        )
    }
}
