//! The shape of a description: all that its tables say.
ghost use Rattle.std.specs.Prelude.{◌≡◌, ◌≤◌, IfOk, length, vec_len};
ghost use Rattle.toml.specs.View.{table_view};
ghost use Rattle.machine_desc.specs.Reads.{Gives};
ghost use Rattle.machine_desc.specs.Shapes.{top_at, one_cell, or_one_cell, sheet_at, IsSized};
ghost use Rattle.machine_desc.specs.Top.{top_cells};

use crate::sheet::{CellTable, Sheet};
use crate::tables::{cells_in, guests_in, input_in, machine_in, policy_or_none};
use crate::work::work_in;
use crate::{DescFault, Place, Section};
use base_words::{NodeId, Sequence};
use std::alloc::{AllocError, Global};
use toml::Table;

/// The tables at the top level. Arrays that are absent are empty.
#[derive(Drop)]
pub struct Top<'a> {
    pub machine: &'a Table,
    pub cells: Vec<&'a Table>,
    pub guests: Vec<&'a Table>,
    pub policy: Option<&'a Table>,
    pub work: Vec<&'a Table>,
    pub input: Vec<&'a Table>,
}

/// The keys of the top level.
#[tactic(auto, unfolding(crate::specs::Shapes::top_at))]
fn top_in(alloc: Global, table: &Table) -> Result<Top<'_>, DescFault>
    ensures top { Gives top_cells result (top_at (table_view table.now)) }
    ensures few_cells { IfOk result (λ top. vec_len top.cells ≤ 8) }
    ensures few_work { IfOk result (λ top. vec_len top.work ≤ 4096) }
{
    let place = Place::Top;
    let section = Section {
        alloc,
        place,
        table,
    };
    section.only(&["machine", "cell", "guest", "policy", "work", "input"])?;
    let machine = section.table("machine")?;
    let cells = section.tables_if_any("cell", 1, 8)?;
    let guests = section.tables("guest", 1, 8)?;
    let policy = section.table_if_any("policy")?;
    let work = section.tables_if_any("work", 0, 4096)?;
    let input = section.tables_if_any("input", 0, 1024)?;
    Ok(Top {
        machine,
        cells,
        guests,
        policy,
        work,
        input,
    })
}

/// The one cell of a description that names none: it has all nodes.
fn one_cell(alloc: Global, count: u8) -> Result<CellTable, AllocError>
    ensures { IfOk result (λ cell. cell ≡ one_cell count) }
{
    let mut nodes = Sequence::new(alloc);
    for node in 0..count {
        nodes.push(NodeId(node))?;
    }
    Ok(CellTable { nodes, lend: 0 })
}

/// The cells, of which there is at least one.
fn cells_or_one(
    alloc: Global,
    count: u8,
    mut cells: Sequence<CellTable>,
) -> Result<Sequence<CellTable>, AllocError>
    requires { length cells ≤ 8 }
    ensures all { IfOk result (λ all. all ≡ or_one_cell count cells) }
    ensures few { IfOk result (λ all. length all ≤ 8) }
{
    if cells.is_empty() {
        cells.push(one_cell(alloc, count)?)?;
    }
    Ok(cells)
}

/// All tables, in order.
#[tactic(auto, unfolding(crate::specs::Shapes::sheet_at))]
pub fn sheet_in(alloc: Global, document: &Table) -> Result<Sheet, DescFault>
    ensures sheet { Gives (λ sheet. sheet) result (sheet_at (table_view document.now)) }
    ensures sized { IfOk result IsSized }
{
    let top = top_in(alloc, document)?;
    let machine = machine_in(alloc, top.machine)?;
    let cells = cells_in(alloc, &top.cells)?;
    let guests = guests_in(alloc, &top.guests)?;
    let policy = policy_or_none(alloc, top.policy)?;
    let work = work_in(alloc, &top.work)?;
    let input = input_in(alloc, &top.input)?;
    let cells = cells_or_one(alloc, machine.nodes, cells)?;
    Ok(Sheet {
        machine,
        cells,
        guests,
        policy,
        work,
        input,
    })
}
