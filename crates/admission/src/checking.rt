//! Whether the cells and the guests get their frames.
ghost use Rattle.machine_desc.specs.Described.{described_seen};
ghost use Rattle.machine_desc.specs.Accepted.{IsDescribed};
ghost use Rattle.admission.specs.Jobs.{checks};
ghost use Rattle.admission.specs.Stages.{Gives};

use crate::{Fault, Refusal};
use boot_frames::{Shortage, admit, needs_of};
use machine_desc::{Machine, Plan};
use std::alloc::Global;

/// Whether the cells get the frames of their caches and then the guests theirs, each of what those before it left.
pub fn check(alloc: Global, machine: &Machine, plan: &Plan) -> Result<(), Refusal>
    requires { IsDescribed machine.now plan.now }
    ensures { Gives result (checks (described_seen machine.now plan.now)) }
{
    let _ = plan;
    let needs = needs_of(alloc, machine.guests.as_slice())?;
    match admit(
        alloc,
        &machine.shape,
        machine.lends.as_slice(),
        machine.cache,
        needs.as_slice(),
    ) {
        Ok(()) => Ok(()),
        Err(Shortage::Memory) => Err(Refusal::Memory),
        Err(Shortage::Cell { cell, needs, has }) => {
            Err(Refusal::Fault(Fault::CacheAdmission { cell, needs, has }))
        }
        Err(Shortage::Guest { guest, needs, has }) => {
            Err(Refusal::Fault(Fault::Admission { guest, needs, has }))
        }
    }
}
