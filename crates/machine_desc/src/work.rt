//! Reads the tables of work.
ghost use Rattle.std.specs.Prelude.{◌≡◌, map, length, IfOk};
ghost use Rattle.toml.specs.View.{table_view};
ghost use Rattle.machine_desc.specs.Views.{views};
ghost use Rattle.machine_desc.specs.Reads.{Gives, each};
ghost use Rattle.machine_desc.specs.Work.{run_at, move_to_at, collapse_at, move_at, fail_at, work_at};

use crate::sheet::{Act, Work};
use crate::{DescFault, Place, Section};
use base_words::{CellId, GuestId, MoveKind, NodeId, Ppn, ProcId, Sequence, VcpuId};
use std::alloc::Global;
use toml::Table;

/// A run.
#[tactic(auto, unfolding(crate::specs::Work::run_at))]
fn run_in(alloc: Global, number: usize, table: &Table) -> Result<Work, DescFault>
    ensures { Gives (λ work. work) result (run_at number (table_view table.now)) }
{
    let place = Place::Work(number);
    let section = Section {
        alloc,
        place,
        table,
    };
    section.only(&["act", "processor", "guest", "vcpu", "steps"])?;
    let processor = section.number("processor", 0, 31)?;
    let guest = section.number("guest", 0, 7)?;
    let vcpu = section.number("vcpu", 0, 3)?;
    let steps = section.number("steps", 0, 16000000)?;
    Ok(Work::Run {
        processor: ProcId(processor as u8),
        guest: GuestId(guest as u8),
        vcpu: VcpuId(vcpu as u8),
        steps,
    })
}

/// A collapse, which names no node.
#[tactic(auto, unfolding(crate::specs::Work::collapse_at))]
fn collapse_in(alloc: Global, number: usize, table: &Table) -> Result<Work, DescFault>
    ensures { Gives (λ work. work) result (collapse_at number (table_view table.now)) }
{
    let place = Place::Work(number);
    let section = Section {
        alloc,
        place,
        table,
    };
    section.only(&["act", "kind", "processor", "guest", "page"])?;
    let processor = section.number("processor", 0, 31)?;
    let guest = section.number("guest", 0, 7)?;
    let page = section.number("page", 0, 2047)?;
    Ok(Work::Move {
        processor: ProcId(processor as u8),
        guest: GuestId(guest as u8),
        page: Ppn(page),
        kind: MoveKind::Collapse,
        node: None,
    })
}

/// A migration or a replication.
#[tactic(auto, unfolding(crate::specs::Work::move_to_at))]
fn move_to(alloc: Global, number: usize, kind: MoveKind, table: &Table) -> Result<Work, DescFault>
    ensures { Gives (λ work. work) result (move_to_at number kind (table_view table.now)) }
{
    let place = Place::Work(number);
    let section = Section {
        alloc,
        place,
        table,
    };
    section.only(&["act", "kind", "processor", "guest", "page", "node"])?;
    let processor = section.number("processor", 0, 31)?;
    let guest = section.number("guest", 0, 7)?;
    let page = section.number("page", 0, 2047)?;
    let node = section.number("node", 0, 7)?;
    Ok(Work::Move {
        processor: ProcId(processor as u8),
        guest: GuestId(guest as u8),
        page: Ppn(page),
        kind,
        node: Some(NodeId(node as u8)),
    })
}

/// A move, by its kind.
#[tactic(auto, unfolding(crate::specs::Work::move_at))]
fn move_in(alloc: Global, number: usize, table: &Table) -> Result<Work, DescFault>
    ensures { Gives (λ work. work) result (move_at number (table_view table.now)) }
{
    let place = Place::Work(number);
    let section = Section {
        alloc,
        place,
        table,
    };
    match section.move_kind()? {
        MoveKind::Migrate => move_to(alloc, number, MoveKind::Migrate, table),
        MoveKind::Replicate => move_to(alloc, number, MoveKind::Replicate, table),
        _ => collapse_in(alloc, number, table),
    }
}

/// The failure of a cell.
#[tactic(auto, unfolding(crate::specs::Work::fail_at))]
fn fail_in(alloc: Global, number: usize, table: &Table) -> Result<Work, DescFault>
    ensures { Gives (λ work. work) result (fail_at number (table_view table.now)) }
{
    let place = Place::Work(number);
    let section = Section {
        alloc,
        place,
        table,
    };
    section.only(&["act", "processor", "cell"])?;
    let processor = section.number("processor", 0, 31)?;
    let cell = section.number("cell", 0, 7)?;
    Ok(Work::Fail {
        processor: ProcId(processor as u8),
        cell: CellId(cell as u8),
    })
}

/// A table `work`, by its number and its act.
#[tactic(auto, unfolding(crate::specs::Work::work_at))]
fn one_in(alloc: Global, number: usize, table: &Table) -> Result<Work, DescFault>
    ensures { Gives (λ work. work) result (work_at number (table_view table.now)) }
{
    let place = Place::Work(number);
    let section = Section {
        alloc,
        place,
        table,
    };
    match section.act()? {
        Act::Run => run_in(alloc, number, table),
        Act::Move => move_in(alloc, number, table),
        Act::Fail => fail_in(alloc, number, table),
    }
}

/// The tables `work`, in order.
#[tactic(auto, using(crate::proofs::Each::loops))]
pub fn work_in(alloc: Global, tables: &[&Table]) -> Result<Sequence<Work>, DescFault>
    ensures work { Gives (λ work. work) result (each work_at 0 (views tables.now)) }
    ensures as_many { IfOk result (λ work. length work ≡ length tables.now) }
{
    let mut work = Sequence::new(alloc);
    for (number, table) in tables.iter().enumerate() {
        work.push(one_in(alloc, number, table)?)?;
    }
    Ok(work)
}
