//! The outcomes of all workers, in the order of the plan.
ghost use Rattle.std.specs.Prelude.{◌≡◌, ◌<◌, ◌++◌, All, IfOk, OnOk, length};
ghost use Rattle.std.specs.Vec.Iter.{into_iter_items};
ghost use Rattle.plan_due.specs.Planned.{planned, planned_as};
ghost use Rattle.plan_due.specs.PlanDue.{slices_of, failures_of};
ghost use Rattle.plan_due.specs.Dealt.{queue_of, front, behind, without_front, dealt};
ghost use Rattle.run_workers.specs.Parts.{outcomes_in, as_list};
ghost use Rattle.run_workers.specs.Working.{IsOn};

use base_words::{Numbered, ProcId};
use guest_core::{FailureList, SliceList};
use machine_desc::Item;
use plan_due::Outcome;
use std::alloc::{AllocError, Global};
use std::vec::IntoIter;

/// The processor of an item.
fn processor_of(item: Item) -> ProcId
    ensures { result.0 ≡ (planned_as 0 item).processor }
{
    match item {
        Item::Run { processor, .. } => processor,
        Item::Move { processor, .. } => processor,
        Item::Fail { processor, .. } => processor,
    }
}

/// The first outcome of a queue, if there is one.
fn take_first(queue: &mut IntoIter<Outcome>) -> Option<Outcome>
    ensures first { as_list result ≡ front (into_iter_items queue.old) }
    ensures rest { into_iter_items queue.new ≡ behind (into_iter_items queue.old) }
{
    queue.next()
}

/// The next outcome of a processor, if there is one.
fn next_of(queues: &mut [IntoIter<Outcome>], processor: ProcId) -> Option<Outcome>
    requires { processor.0 < length queues.old }
    ensures first { as_list result ≡ front (queue_of (outcomes_in queues.old) processor.0) }
    ensures rest { outcomes_in queues.new ≡ without_front (outcomes_in queues.old) processor.0 }
    ensures same { length queues.new ≡ length queues.old }
{
    take_first(&mut queues[processor.number()])
}

/// Puts a slice or a failure into its list.
fn put(
    slices: &mut SliceList,
    failures: &mut FailureList,
    outcome: Option<Outcome>,
) -> Result<(), AllocError>
    ensures slices { OnOk result (slices.new ≡ slices.old ++ slices_of (as_list outcome)) }
    ensures failures { OnOk result (failures.new ≡ failures.old ++ failures_of (as_list outcome)) }
{
    match outcome {
        Some(Outcome::Slice(slice)) => slices.push(slice)?,
        Some(Outcome::Failure(failure)) => failures.push(failure)?,
        Some(Outcome::Asked) | None => {}
    }
    Ok(())
}

/// The slices and the failures among the outcomes of all processors, in the order of the plan's items.
pub(crate) fn in_order(
    alloc: Global,
    items: &[Item],
    mut queues: Vec<IntoIter<Outcome>>,
) -> Result<(SliceList, FailureList), AllocError>
    requires { All (IsOn (length queues.items)) items.now }
    ensures slices { IfOk result (λ lists. lists.0 ≡ slices_of (dealt (planned 0 items.now) (outcomes_in queues.items))) }
    ensures failures { IfOk result (λ lists. lists.1 ≡ failures_of (dealt (planned 0 items.now) (outcomes_in queues.items))) }
{
    let mut slices = SliceList::new(alloc);
    let mut failures = FailureList::new(alloc);
    for item in items {
        let outcome = next_of(&mut queues, processor_of(*item));
        put(&mut slices, &mut failures, outcome)?;
    }
    Ok((slices, failures))
}
