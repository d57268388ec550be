//! Reads each table of a description but those of work.
ghost use Rattle.std.specs.Prelude.{◌≡◌, ◌<◌, ◌≤◌, length, map, option_map, IfOk};
ghost use Rattle.machine_desc.specs.Views.{views, view_if_any};
ghost use Rattle.toml.specs.View.{table_view};
ghost use Rattle.machine_desc.specs.Reads.{Gives, each};
ghost use Rattle.machine_desc.specs.Sheet.{machine_at, cell_table_at, guest_at, policy_at, input_at};

use crate::sheet::{CellTable, InputTable, MachineTable};
use crate::{DescFault, GuestSpec, Place, Section, SpecList};
use base_words::{GuestId, Name, NodeId, Policy, Sequence};
use std::alloc::Global;
use toml::Table;

/// The table `machine`.
#[tactic(auto, unfolding(crate::specs::Sheet::machine_at))]
pub fn machine_in(alloc: Global, table: &Table) -> Result<MachineTable, DescFault>
    ensures machine { Gives (λ machine. machine) result (machine_at (table_view table.now)) }
    ensures few_nodes { IfOk result (λ machine. machine.nodes ≤ 8) }
    ensures has_frames { IfOk result (λ machine. 0 < machine.frames) }
{
    let place = Place::Machine;
    let section = Section {
        alloc,
        place,
        table,
    };
    section.only(&["nodes", "frames", "processors", "cache"])?;
    let nodes = section.number("nodes", 1, 8)?;
    let frames = section.number("frames", 1, 4096)?;
    let processors = section.nodes("processors", 32)?;
    let cache = section.number_or("cache", 0, 1024, 0)?;
    Ok(MachineTable {
        nodes: nodes as u8,
        frames,
        processors,
        cache,
    })
}

/// A table `cell`, by its number.
#[tactic(auto, unfolding(crate::specs::Sheet::cell_table_at))]
fn cell_in(alloc: Global, number: usize, table: &Table) -> Result<CellTable, DescFault>
    ensures { Gives (λ cell. cell) result (cell_table_at number (table_view table.now)) }
{
    let place = Place::Cell(number);
    let section = Section {
        alloc,
        place,
        table,
    };
    section.only(&["nodes", "lend"])?;
    let nodes = section.nodes("nodes", 8)?;
    let lend = section.number_or("lend", 0, 32768, 0)?;
    Ok(CellTable { nodes, lend })
}

/// The tables `cell`, in order.
#[tactic(auto, using(crate::proofs::Each::loops))]
pub fn cells_in(alloc: Global, tables: &[&Table]) -> Result<Sequence<CellTable>, DescFault>
    ensures cells { Gives (λ cells. cells) result (each cell_table_at 0 (views tables.now)) }
    ensures as_many { IfOk result (λ cells. length cells ≡ length tables.now) }
{
    let mut cells = Sequence::new(alloc);
    for (number, table) in tables.iter().enumerate() {
        cells.push(cell_in(alloc, number, table)?)?;
    }
    Ok(cells)
}

/// A table `guest`, by its number.
#[tactic(auto, unfolding(crate::specs::Sheet::guest_at))]
fn guest_in(alloc: Global, number: usize, table: &Table) -> Result<GuestSpec, DescFault>
    ensures { Gives (λ guest. guest) result (guest_at number (table_view table.now)) }
{
    let place = Place::Guest(number);
    let section = Section {
        alloc,
        place,
        table,
    };
    section.only(&["image", "form", "pages", "vcpus", "node", "disk", "profile"])?;
    let image = section.text("image", 255)?;
    let raw = section.is_raw()?;
    let pages = section.number("pages", 1, 2048)?;
    let vcpus = section.number("vcpus", 1, 4)?;
    let node = section.number("node", 0, 7)?;
    let disk = section.text_if_any("disk", 255)?;
    let profile = section.number_or("profile", 1, 2, 1)?;
    Ok(GuestSpec {
        image: Name::from_string(image),
        raw,
        pages,
        vcpus: vcpus as u8,
        node: NodeId(node as u8),
        disk: disk.map(Name::from_string),
        profile: profile as u8,
    })
}

/// The tables `guest`, in order.
#[tactic(auto, using(crate::proofs::Each::loops))]
pub fn guests_in(alloc: Global, tables: &[&Table]) -> Result<SpecList, DescFault>
    ensures { Gives (λ guests. guests) result (each guest_at 0 (views tables.now)) }
{
    let mut guests = Sequence::new(alloc);
    for (number, table) in tables.iter().enumerate() {
        guests.push(guest_in(alloc, number, table)?)?;
    }
    Ok(guests)
}

/// The table `policy`.
#[tactic(auto, unfolding(crate::specs::Sheet::policy_at))]
fn policy_in(alloc: Global, table: &Table) -> Result<Policy, DescFault>
    ensures { Gives (λ policy. policy) result (policy_at (table_view table.now)) }
{
    let place = Place::Policy;
    let section = Section {
        alloc,
        place,
        table,
    };
    section.only(&["migrate", "replicate"])?;
    let migrate = section.number_or("migrate", 0, 1000000, 0)?;
    let replicate = section.number_or("replicate", 0, 1000000, 0)?;
    Ok(Policy { migrate, replicate })
}

/// The table `policy`, or no policy where it is absent.
#[tactic(auto, unfolding(crate::specs::Sheet::policy_at, crate::specs::Unknown::only, crate::specs::Cells::cell_at))]
pub fn policy_or_none(alloc: Global, table: Option<&Table>) -> Result<Policy, DescFault>
    ensures { Gives (λ policy. policy) result (policy_at (view_if_any table.entry)) }
{
    match table {
        Some(table) => policy_in(alloc, table),
        None => Ok(Policy {
            migrate: 0,
            replicate: 0,
        }),
    }
}

/// A table `input`, by its number.
#[tactic(auto, unfolding(crate::specs::Sheet::input_at))]
fn entry_in(alloc: Global, number: usize, table: &Table) -> Result<InputTable, DescFault>
    ensures { Gives (λ entry. entry) result (input_at number (table_view table.now)) }
{
    let place = Place::Input(number);
    let section = Section {
        alloc,
        place,
        table,
    };
    section.only(&["guest", "at", "text"])?;
    let guest = section.number("guest", 0, 7)?;
    let at = section.number("at", 0, 16000000)?;
    let text = section.text("text", 1024)?;
    Ok(InputTable {
        guest: GuestId(guest as u8),
        at,
        text: Sequence::from_vec(text.into_bytes()),
    })
}

/// The tables `input`, in order.
#[tactic(auto, using(crate::proofs::Each::loops))]
pub fn input_in(alloc: Global, tables: &[&Table]) -> Result<Sequence<InputTable>, DescFault>
    ensures { Gives (λ input. input) result (each input_at 0 (views tables.now)) }
{
    let mut input = Sequence::new(alloc);
    for (number, table) in tables.iter().enumerate() {
        input.push(entry_in(alloc, number, table)?)?;
    }
    Ok(input)
}
