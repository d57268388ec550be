//! The slots: loads and stores of words of pages, each page behind a lock of its own.
ghost use Rattle.std.specs.Prelude.{◌≡◌, ◌<◌, ◌%◌, IfOk, OnErr, OnOk};
ghost use Rattle.page_slots.specs.Histories.{loaded, stored};
ghost use Rattle.page_slots.specs.Points.{point_of};
ghost use Rattle.page_slots.specs.Slots.{IsOf, with_access};

use crate::access::History;
use crate::caller::Caller;
use crate::kept::Room;
use crate::protocol::{PageTable, Terms};
use crate::turns::{hold, put};
use base_words::{GuestId, Ppn, ProcId, VcpuId};
use outside_io::{Gate, GatePoint};
use std::alloc::{AllocError, Global};
use std::marker::{Brand, Model};
use std::sync::Wait;

/// Pages behind locks of their own, with their histories. Threads share them by `&`.
#[derive(Drop)]
pub struct PageSlots {
    pub(crate) table: PageTable,
    pub(crate) terms: Terms,
    pub(crate) alloc: Global,
    pub(crate) room: Vec<History>,
}

impl Model for PageSlots {
    ghost use Rattle.page_slots.specs.Slots.{MadeSlots};

    ghost Value = { MadeSlots };

    ghost use Rattle.page_slots.specs.Inside.{slots_of, IsWhole};

    ghost view = { slots_of };

    ghost invariant = { IsWhole };
}

impl Caller {
    // Where the next access is about to be made.
    fn point(&self) -> GatePoint
        ensures { result ≡ point_of self.now }
    {
        GatePoint {
            processor: ProcId(self.number),
            guest: GuestId(0),
            vcpu: VcpuId(0),
            turn: self.made,
        }
    }
}

impl PageSlots {
    /// Loads a word of a page. Waits while another caller has the page; the gate is passed while this one has it.
    pub fn load<R: Wait, G: Gate>(
        &self,
        rt: &R,
        caller: &mut Caller,
        page: Ppn,
        offset: u32,
        gate: &G,
    ) -> Result<u32, AllocError>
        requires made { IsOf self.now caller.old }
        requires page { page.0 < self.now.pages }
        requires offset { (offset < 4096) × (offset % 4 ≡ 0) }
        ensures ok { IfOk result (λ value. caller.new ≡ with_access caller.old (loaded page.0 offset value)) }
        ensures err { OnErr result (caller.new ≡ caller.old) }
    {
        let room = Room::take(self.alloc)?;
        let at = caller.point();
        let pages = &self.table.shared;
        let mut kept = hold(pages, rt, &mut caller.hand, page.0 as usize)?;
        gate.pass(at);
        let entry = kept.load(room, caller.number, page, offset);
        put::<Brand>(pages, &mut caller.hand, page.0 as usize, kept, entry);
        caller.made = caller.made.saturating_add(1);
        Ok(entry.access.value)
    }

    /// Stores a word of a page. Waits while another caller has the page; the gate is passed while this one has it.
    pub fn store<R: Wait, G: Gate>(
        &self,
        rt: &R,
        caller: &mut Caller,
        page: Ppn,
        offset: u32,
        value: u32,
        gate: &G,
    ) -> Result<(), AllocError>
        requires made { IsOf self.now caller.old }
        requires page { page.0 < self.now.pages }
        requires offset { (offset < 4096) × (offset % 4 ≡ 0) }
        ensures ok { OnOk result (caller.new ≡ with_access caller.old (stored page.0 offset value)) }
        ensures err { OnErr result (caller.new ≡ caller.old) }
    {
        let room = Room::take(self.alloc)?;
        let at = caller.point();
        let pages = &self.table.shared;
        let mut kept = hold(pages, rt, &mut caller.hand, page.0 as usize)?;
        gate.pass(at);
        let entry = kept.store(room, caller.number, page, offset, value);
        put::<Brand>(pages, &mut caller.hand, page.0 as usize, kept, entry);
        caller.made = caller.made.saturating_add(1);
        Ok(())
    }
}
