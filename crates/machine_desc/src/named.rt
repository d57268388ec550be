//! All that is named in a description, looked up in the order of the tables.
ghost use Rattle.std.specs.Prelude.{◌≡◌, ◌≤◌, length, IfOk};
ghost use Rattle.machine_desc.specs.Reads.{Gives};
ghost use Rattle.machine_desc.specs.Named.{named_at};
ghost use Rattle.machine_desc.specs.Shapes.{IsSized};

use crate::DescFault;
use crate::items::{few_steps, items_in, total_steps};
use crate::names::{cells_named, guests_named, homes, input_named, processors_named};
use crate::sheet::{Named, Sheet};
use std::alloc::Global;

/// Looks up all that is named, and last sums the steps.
#[tactic(auto, unfolding(crate::specs::Named::named_at))]
pub fn named_in(alloc: Global, sheet: &Sheet) -> Result<Named, DescFault>
    requires { IsSized sheet.now }
    ensures named { Gives (λ named. named) result (named_at sheet.now) }
    ensures as_many { IfOk result (λ named. length named.homes ≡ sheet.now.machine.nodes) }
{
    let count = sheet.machine.nodes;
    let cells = sheet.cells.as_slice();
    processors_named(alloc, count, sheet.machine.processors.as_slice())?;
    cells_named(alloc, count, cells)?;
    let homes = homes(alloc, count, cells)?;
    guests_named(alloc, count, sheet.guests.as_slice())?;
    let items = items_in(alloc, sheet)?;
    input_named(alloc, sheet.guests.len(), sheet.input.as_slice())?;
    few_steps(total_steps(sheet.work.as_slice()))?;
    Ok(Named { homes, items })
}
