//! Reads a description.
ghost use Rattle.std.specs.Prelude.{◌≡◌, ◌≢◌, None, Some, IsUtf8, IfOk, IfErr, length, map};
ghost use Rattle.toml.specs.Parse.{parse_document};
ghost use Rattle.toml.specs.View.{table_view};
ghost use Rattle.machine_desc.specs.Reads.{Gives};
ghost use Rattle.machine_desc.specs.Shapes.{IsSized};
ghost use Rattle.machine_desc.specs.Accepted.{IsDescribed};
ghost use Rattle.machine_desc.specs.Described.{described_seen, description_of};
ghost use Rattle.machine_desc.specs.Reading.{described, read_of, IsMachine, IsPlan, HasFault, Reads};

use crate::input::lists_in;
use crate::named::named_in;
use crate::shapes::sheet_in;
use crate::sheet::{CellTable, Named, Sheet};
use crate::{DescFault, Machine, Plan};
use base_words::{LendList, Sequence, Shape};
use std::alloc::{AllocError, Global};
use toml::Table;

/// The document that bytes are, by the grammar of TOML.
fn document_in(alloc: Global, bytes: &[u8]) -> Result<Table, DescFault>
    ensures utf8 { IfOk result (λ _. IsUtf8 bytes.now) }
    ensures document { IfOk result (λ table. parse_document bytes.now ≡ Some (table_view table)) }
    ensures refused { IfErr result (λ fault. fault ≢ DescFault.Memory → fault ≡ DescFault.Toml) }
    ensures none { IfErr result
        (λ fault. fault ≢ DescFault.Memory → IsUtf8 bytes.now → parse_document bytes.now ≡ None) }
{
    match toml::table_from_slice(alloc, bytes) {
        Ok(table) => Ok(table),
        Err(error) if error.is_memory() => Err(DescFault::Memory),
        Err(_) => Err(DescFault::Toml),
    }
}

/// How many frames each cell lends.
fn lends_in(alloc: Global, cells: &[CellTable]) -> Result<LendList, AllocError>
    ensures { IfOk result (λ lends. lends ≡ map (λ cell. cell.lend) cells.now) }
{
    let lends = cells.iter().map(|cell| cell.lend).collect(alloc)?;
    Ok(Sequence::from_vec(lends))
}

/// The machine and the plan of the tables, once all that they name is looked up.
fn machine_and_plan(
    alloc: Global,
    sheet: Sheet,
    named: Named,
) -> Result<(Machine, Plan), AllocError>
    requires sized { IsSized sheet }
    requires homes { length named.homes ≡ sheet.machine.nodes }
    ensures machine { IfOk result (λ both. IsMachine sheet named.homes both.0) }
    ensures plan { IfOk result (λ both. IsPlan sheet named.items both.1) }
{
    let lends = lends_in(alloc, sheet.cells.as_slice())?;
    let input = lists_in(alloc, sheet.guests.len(), sheet.input.as_slice())?;
    let shape = Shape {
        nodes: sheet.machine.nodes,
        frames: sheet.machine.frames,
        cells: named.homes,
    };
    let machine = Machine {
        shape,
        processors: sheet.machine.processors,
        lends,
        cache: sheet.machine.cache,
        guests: sheet.guests,
        policy: sheet.policy,
    };
    let items = named.items;
    Ok((machine, Plan { items, input }))
}

/// What the bytes say: first as a document, then table by table, then with all that they name looked up.
fn tables_read(alloc: Global, bytes: &[u8]) -> Result<(Machine, Plan), DescFault>
    ensures { Reads bytes.now result }
{
    let document = document_in(alloc, bytes)?;
    let sheet = sheet_in(alloc, &document)?;
    let named = named_in(alloc, &sheet)?;
    Ok(machine_and_plan(alloc, sheet, named)?)
}

/// Reads a description. The answer is its machine and its plan, which are within all bounds, or its first fault: first what the
/// grammar of TOML refuses, then the shape of each table, then what the tables name, last the
/// sum of the steps. `Memory` says nothing of the description.
#[tactic(auto, using(crate::proofs::Readings::reading_gives))]
pub fn read(alloc: Global, bytes: &[u8]) -> Result<(Machine, Plan), DescFault>
    ensures reads { Reads bytes.now result }
    ensures gives { Gives (λ both. described_seen both.0 both.1) result (description_of bytes.now) }
    ensures accepted { IfOk result (λ both. IsDescribed both.0 both.1) }
{
    tables_read(alloc, bytes)
}
