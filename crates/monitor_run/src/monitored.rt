//! The run of a description's guests under the monitor.
ghost use Rattle.std.specs.Prelude.{IfOk};
ghost use Rattle.machine_desc.specs.Described.{described_seen};
ghost use Rattle.admission.specs.Ready.{IsSetup};
ghost use Rattle.admission.specs.Views.{starts_of};
ghost use Rattle.monitor_run.specs.Monitored.{IsRun};

use crate::sources::sources;
use admission::Setup;
use guest_core::RunRecord;
use isolation_law::isolation;
use outside_io::Gate;
use run_workers::run;
use std::alloc::{AllocError, Global};
use std::sync::Wait;
use std::thread::Threads;

/// Runs the guests of a setup, and keeps their record: each has run as its private machine does.
pub fn run_monitored<R: Threads + Wait + Sync, G: Gate>(
    rt: &R,
    alloc: Global,
    setup: Setup,
    gate: &G,
) -> Result<RunRecord, AllocError>
    requires setup { IsSetup setup }
    ensures { IfOk result (IsRun (described_seen setup.machine setup.plan) (starts_of setup)) }
{
    isolation();
    let Setup {
        machine,
        plan,
        images,
        disks,
        numbers,
    } = setup;
    let sources = sources(alloc, images, disks, numbers.as_slice())?;
    run(rt, alloc, &machine, &plan, sources, gate)
}
