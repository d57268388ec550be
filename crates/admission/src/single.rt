//! One guest of the command line: its machine and its plan, and its job.
ghost use Rattle.std.specs.Prelude.{◌≡◌, ◌≤◌, [], ◌∷◌, IfOk};
ghost use Rattle.machine_desc.specs.Described.{described_seen};
ghost use Rattle.machine_desc.specs.declared.plan.Plan.{Plan};
ghost use Rattle.admission.specs.Jobs.{single_guest as single_guest_of, single_items, single_described, single_from};
ghost use Rattle.admission.specs.Ready.{IsReady};
ghost use Rattle.admission.specs.Started.{IsStarted};
ghost use Rattle.admission.specs.Views.{image_seen, job_seen};

use crate::{DiskList, Job, Setup};
use base_words::{
    CellId, GuestId, InputList, Name, NodeId, Policy, ProcId, Sequence, Shape, VcpuId,
};
use elf_image::Image;
use machine_desc::{GuestSpec, Item, Machine, Plan};
use std::alloc::{AllocError, AllocFailed, Global};

/// The pages of the guest, and the frames of its node.
pub const SINGLE_PAGES: u32 = 16;

/// A list of one item.
fn one<T: Drop>(alloc: Global, item: T) -> Result<Sequence<T>, AllocFailed<T>>
    ensures { IfOk result (λ list. list ≡ item ∷ []) }
{
    let mut list = Sequence::new(alloc);
    list.push(item)?;
    Ok(list)
}

/// The guest, of a raw image or an ELF one. The name of its file isn't kept.
fn single_guest(alloc: Global, raw: bool) -> Result<GuestSpec, AllocError>
    ensures { IfOk result (λ guest. guest ≡ single_guest_of raw) }
{
    Ok(GuestSpec {
        image: Name::copy_of(alloc, "guest")?,
        raw,
        pages: SINGLE_PAGES,
        vcpus: 1,
        node: NodeId(0),
        disk: None,
        profile: 1,
    })
}

/// The machine: one node with one processor, which is a cell.
fn single_machine(alloc: Global, raw: bool) -> Result<Machine, AllocError>
    ensures { IfOk result (λ machine. (plan : Plan) → described_seen machine plan ≡ record (single_described raw 0) { items = plan.items; input = plan.input }) }
{
    let shape = Shape {
        nodes: 1,
        frames: SINGLE_PAGES,
        cells: one(alloc, CellId(0))?,
    };
    Ok(Machine {
        shape,
        processors: one(alloc, NodeId(0))?,
        lends: one(alloc, 0)?,
        cache: 0,
        guests: one(alloc, single_guest(alloc, raw)?)?,
        policy: Policy {
            migrate: 0,
            replicate: 0,
        },
    })
}

/// The plan: one run of so many steps, and no input.
fn single_plan(alloc: Global, steps: u64) -> Result<Plan, AllocError>
    ensures items { IfOk result (λ plan. plan.items ≡ single_items steps) }
    ensures input { IfOk result (λ plan. plan.input ≡ [] ∷ []) }
{
    let run = Item::Run {
        processor: ProcId(0),
        guest: GuestId(0),
        vcpu: VcpuId(0),
        steps,
    };
    Ok(Plan {
        items: one(alloc, run)?,
        input: one(alloc, InputList::new(alloc))?,
    })
}

/// The machine and the plan of one guest that is to make so many steps.
fn single_parts(alloc: Global, raw: bool, steps: u64) -> Result<(Machine, Plan), AllocError>
    ensures { IfOk result (λ both. described_seen both.0 both.1 ≡ single_described raw steps) }
{
    let machine = single_machine(alloc, raw)?;
    let plan = single_plan(alloc, steps)?;
    Ok((machine, plan))
}

/// The job of one guest from its image, which was raw or an ELF file.
pub fn single_job(alloc: Global, image: Image, raw: bool, steps: u64) -> Result<Job, AllocError>
    requires few { steps ≤ 16000000 }
    requires started { IsStarted (single_guest_of raw) (record { image = image_seen image; disk = [] }) }
    ensures ready { IfOk result IsReady }
    ensures job { IfOk result (λ job. job_seen job ≡ single_from raw steps (image_seen image)) }
{
    let (machine, plan) = single_parts(alloc, raw, steps)?;
    let setup = Setup {
        machine,
        plan,
        images: one(alloc, image)?,
        disks: DiskList::new(alloc),
        numbers: one(alloc, None)?,
    };
    Ok(Job::Monitored { setup, sums: false })
}
