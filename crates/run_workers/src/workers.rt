//! The workers, one a processor.
ghost use Rattle.std.specs.Prelude.{◌≡◌, ℕ, ◌<◌, length, map, IfOk, Some, slice_index_or};
ghost use Rattle.guest_core.specs.GuestView.{shared_by};
ghost use Rattle.run_workers.specs.Workers.{IsPlanOf, IsReady, Works};
ghost use Rattle.run_workers.specs.declared.workers.Worker.{Worker};
ghost use Rattle.run_workers.specs.Parts.{token_of, outcomes_of, outcomes_in};
ghost use Rattle.run_workers.specs.Working.{machine_of};

use crate::carrying::carry_out;
use base_words::MOST_PROCESSORS;
use guest_core::Resources;
use guest_lock::{GuestCells, Starts};
use machine_desc::Plan;
use outside_io::Gate;
use plan_due::Outcome;
use shootdown::{ProcToken, TokenList};
use std::alloc::{AllocError, Global};
use std::sync::Wait;
use std::thread;
use std::thread::Threads;
use std::vec::IntoIter;

/// At most so many workers, each in a thread of its own.
const WORKERS: usize = MOST_PROCESSORS;

/// A worker: its processor's token, and what came of its items, unless memory was wanting.
#[derive(Drop)]
pub(crate) struct Worker {
    pub(crate) token: ProcToken,
    pub(crate) outcomes: Option<Vec<Outcome>>,
}

/// A worker for each processor.
pub(crate) fn workers_of(alloc: Global, tokens: TokenList) -> Result<Vec<Worker>, AllocError>
    ensures { IfOk result (λ workers. map token_of workers.items ≡ tokens) }
{
    let mut workers = Vec::new(alloc);
    for token in tokens.into_vec() {
        workers.push(Worker {
            token,
            outcomes: None,
        })?;
    }
    Ok(workers)
}

/// The work of a worker.
fn work<N: Starts, R: Wait, T: Gate>(
    rt: &R,
    alloc: Global,
    cells: &GuestCells<N>,
    resources: &Resources,
    plan: &Plan,
    gate: &T,
    worker: &mut Worker,
)
    requires plan { IsPlanOf N.starts plan.now.items }
    requires ready { IsReady N.starts N.board worker.old }
    requires shared { shared_by resources.now ≡ N.shared }
    ensures { Works (machine_of N.starts) plan.now.items worker.old worker.new }
{
    worker.outcomes = carry_out(
        rt,
        alloc,
        cells,
        &mut worker.token,
        resources,
        gate,
        plan.items.as_slice(),
    )
    .ok();
}

/// The work of all workers, each in a thread of its own.
pub(crate) fn all_work<N: Starts + Send + Sync, R: Threads + Wait + Sync, T: Gate>(
    rt: &R,
    alloc: Global,
    cells: &GuestCells<N>,
    resources: &Resources,
    plan: &Plan,
    gate: &T,
    workers: &mut [Worker],
)
    requires plan { IsPlanOf N.starts plan.now.items }
    requires ready { (i : ℕ) (d : Worker) → i < length workers.old → IsReady N.starts N.board (slice_index_or workers.old i d) }
    requires shared { shared_by resources.now ≡ N.shared }
    ensures each { (i : ℕ) (d : Worker) → i < length workers.old → Works (machine_of N.starts) plan.now.items (slice_index_or workers.old i d) (slice_index_or workers.new i d) }
    ensures all { length workers.new ≡ length workers.old }
{
    thread::for_each_mut(
        rt,
        workers,
        WORKERS,
        &|_, worker: &mut Worker|
            requires { IsPlanOf N.starts plan.now.items × IsReady N.starts N.board worker.now × (shared_by resources.now ≡ N.shared) }
            ensures { Works (machine_of N.starts) plan.entry.now.items worker.entry.now worker.exit.now }
        { work(rt, alloc, cells, resources, plan, gate, worker) },
    );
}

/// The workers' tokens, and the outcomes of each, where memory was wanting to none.
pub(crate) fn parts(
    alloc: Global,
    workers: Vec<Worker>,
) -> Result<(TokenList, Vec<IntoIter<Outcome>>), AllocError>
    ensures tokens { IfOk result (λ parts. parts.0 ≡ map token_of workers.items) }
    ensures outcomes { IfOk result (λ parts. map Some (outcomes_in parts.1.items) ≡ map outcomes_of workers.items) }
{
    let mut tokens = TokenList::new(alloc);
    let mut queues = Vec::new(alloc);
    for Worker { token, outcomes } in workers {
        let Some(outcomes) = outcomes else {
            return Err(AllocError);
        };
        tokens.push(token)?;
        queues.push(outcomes.into_iter())?;
    }
    Ok((tokens, queues))
}
