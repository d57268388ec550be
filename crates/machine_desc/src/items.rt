//! Looks up what work names: the items of the plan, and the sum of their steps.
ghost use Rattle.std.specs.Prelude.{◌≡◌, ◌≤◌, length, take};
ghost use Rattle.std.specs.List.{list_any};
ghost use Rattle.machine_desc.specs.Paths.{path_of};
ghost use Rattle.machine_desc.specs.Reads.{Gives, each};
ghost use Rattle.machine_desc.specs.Items.{work_key, on_processor, for_guest, target, fails, run_item, move_item, fail_item, item_at, items_at, steps_of, total_steps, few_steps};

use crate::names::there;
use crate::sheet::{Sheet, Work};
use crate::{DescFault, GuestSpec, Item, ItemList, Key, Place};
use base_words::{CellId, GuestId, MoveKind, NodeId, Ppn, ProcId, Sequence, VcpuId};
use std::alloc::Global;

/// A piece of work by its number, and the tables in which its names are looked up.
#[derive(Clone, Copy)]
pub struct Piece<'s> {
    pub alloc: Global,
    pub sheet: &'s Sheet,
    pub number: usize,
}

impl<'s> Piece<'s> {
    /// A key of this piece of work.
    fn key<'k>(self, name: &'k str) -> Key<'k>
        ensures { path_of result ≡ work_key self.entry.number name.now }
    {
        Key {
            alloc: self.alloc,
            place: Place::Work(self.number),
            name,
        }
    }

    /// Refuses a processor that isn't there.
    fn processor(self, processor: ProcId) -> Result<(), DescFault>
        ensures { Gives (λ _. tt) result
            (on_processor self.entry.sheet.now self.entry.number processor) }
    {
        let count = self.sheet.machine.processors.len() as u64;
        there(self.key("processor"), count, u64::from(processor.0))
    }

    /// The guest of a number.
    fn guest(self, guest: GuestId) -> Result<&'s GuestSpec, DescFault>
        ensures { Gives (λ spec. spec.now) result
            (for_guest self.entry.sheet.now self.entry.number guest) }
    {
        match self.sheet.guests.as_slice().get(guest.0 as usize) {
            Some(spec) => Ok(spec),
            None => Err(self.key("guest").names(u64::from(guest.0))),
        }
    }

    /// Where a move leads: to its node, or for a collapse to the guest's home.
    fn target(self, guest: &GuestSpec, node: Option<NodeId>) -> Result<NodeId, DescFault>
        ensures { Gives (λ node. node) result
            (target self.entry.sheet.now self.entry.number guest.now node) }
    {
        let Some(node) = node else {
            return Ok(guest.node);
        };
        let count = u64::from(self.sheet.machine.nodes);
        there(self.key("node"), count, u64::from(node.0))?;
        Ok(node)
    }

    /// A run, with its processor, guest and vcpu looked up.
    #[tactic(auto, unfolding(crate::specs::Items::run_item))]
    fn run(
        self,
        processor: ProcId,
        guest: GuestId,
        vcpu: VcpuId,
        steps: u32,
    ) -> Result<Item, DescFault>
        ensures { Gives (λ item. item) result
            (run_item self.entry.sheet.now self.entry.number processor guest vcpu steps) }
    {
        self.processor(processor)?;
        let spec = self.guest(guest)?;
        there(self.key("vcpu"), u64::from(spec.vcpus), u64::from(vcpu.0))?;
        Ok(Item::Run {
            processor,
            guest,
            vcpu,
            steps: u64::from(steps),
        })
    }

    /// A move, with its processor, guest, page and node looked up.
    #[tactic(auto, unfolding(crate::specs::Items::move_item))]
    fn page_move(
        self,
        processor: ProcId,
        guest: GuestId,
        page: Ppn,
        kind: MoveKind,
        node: Option<NodeId>,
    ) -> Result<Item, DescFault>
        ensures { Gives (λ item. item) result
            (move_item self.entry.sheet.now self.entry.number processor guest page kind node) }
    {
        self.processor(processor)?;
        let spec = self.guest(guest)?;
        there(self.key("page"), u64::from(spec.pages), u64::from(page.0))?;
        let node = self.target(spec, node)?;
        Ok(Item::Move {
            processor,
            guest,
            page,
            kind,
            node,
        })
    }

    /// A failure, with its processor and cell looked up, and no failure of the cell before.
    #[tactic(auto, unfolding(crate::specs::Items::fail_item))]
    fn failure(self, before: &[Work], processor: ProcId, cell: CellId) -> Result<Item, DescFault>
        ensures { Gives (λ item. item) result
            (fail_item self.entry.sheet.now self.entry.number before.now processor cell) }
    {
        self.processor(processor)?;
        let key = self.key("cell");
        there(key, self.sheet.cells.len() as u64, u64::from(cell.0))?;
        if is_failed(cell, before) {
            return Err(key.twice(u64::from(cell.0)));
        }
        Ok(Item::Fail { processor, cell })
    }

    /// A piece of work as an item, by the work before it.
    fn item(self, before: &[Work], work: &Work) -> Result<Item, DescFault>
        ensures { Gives (λ item. item) result
            (item_at self.entry.sheet.now self.entry.number before.now work.now) }
    {
        match *work {
            Work::Run {
                processor,
                guest,
                vcpu,
                steps,
            } => self.run(processor, guest, vcpu, steps),
            Work::Move {
                processor,
                guest,
                page,
                kind,
                node,
            } => self.page_move(processor, guest, page, kind, node),
            Work::Fail { processor, cell } => self.failure(before, processor, cell),
        }
    }
}

/// Whether this piece of work fails the cell.
fn fails(cell: CellId, work: &Work) -> bool
    ensures { result ≡ fails cell.0 work.now }
{
    match work {
        Work::Fail { cell: failed, .. } => failed.0 == cell.0,
        _ => false,
    }
}

/// Whether work fails the cell.
fn is_failed(cell: CellId, work: &[Work]) -> bool
    ensures { result ≡ list_any (fails cell.0) work.now }
{
    work.iter().any(|piece| fails(cell, piece))
}

/// All work as items, in order.
#[tactic(auto, unfolding(crate::specs::Items::items_at))]
pub fn items_in(alloc: Global, sheet: &Sheet) -> Result<ItemList, DescFault>
    ensures { Gives (λ items. items) result (items_at sheet.now) }
{
    items_of(alloc, sheet, sheet.work.as_slice())
}

/// Each piece of work as an item.
#[tactic(auto, using(crate::proofs::Plain::readings))]
fn items_of(alloc: Global, sheet: &Sheet, work: &[Work]) -> Result<ItemList, DescFault>
    ensures { Gives (λ items. items) result
        (each (λ i w. item_at sheet.now i (take i work.now) w) 0 work.now) }
{
    let mut items = Sequence::new(alloc);
    for (number, one) in work.iter().enumerate() {
        let piece = Piece {
            alloc,
            sheet,
            number,
        };
        items.push(piece.item(&work[..number], one)?)?;
    }
    Ok(items)
}

/// The steps of a piece of work.
fn steps_of(work: &Work) -> u32
    ensures { result ≡ steps_of work.now }
{
    match work {
        Work::Run { steps, .. } => *steps,
        _ => 0,
    }
}

/// The steps of all work together.
pub fn total_steps(work: &[Work]) -> u64
    requires { length work.now ≤ 4096 }
    ensures { result ≡ total_steps work.now }
{
    let mut total = 0;
    for piece in work {
        total += u64::from(steps_of(piece));
    }
    total
}

/// Refuses more than 16,000,000 steps.
pub fn few_steps(total: u64) -> Result<(), DescFault>
    ensures { Gives (λ _. tt) result (few_steps total) }
{
    if total > 16_000_000 {
        return Err(DescFault::Steps(total));
    }
    Ok(())
}
