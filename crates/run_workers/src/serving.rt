//! One run item, carried out.
ghost use Rattle.std.specs.Prelude.{◌≡◌, ◌≢◌, ◌≤◌, ◌==◌, if◌then◌else◌, ℕ, None, IfOk};
ghost use Rattle.guest_core.specs.declared.records.Cut.TheVariants.{Whole};
ghost use Rattle.guest_core.specs.GuestView.{shared_by};
ghost use Rattle.guest_lock.specs.declared.burst.Stop.TheVariants.{Paused};
ghost use Rattle.guest_lock.specs.Counted.{goes_on, resumed};
ghost use Rattle.guest_lock.specs.Fits.{Fits};
ghost use Rattle.guest_lock.specs.Told.{shown, Bursts};
ghost use Rattle.plan_due.specs.Slices.{IsCause};
ghost use Rattle.run_workers.specs.Working.{as_told, cell_in, AreOfOneMachine, HasPlace, IsSameToken, Serves};

use base_words::{GuestId, VcpuId};
use guest_core::{Cut, Loaded, Resources, SliceRecord};
use guest_lock::{Burst, GuestCell, Starts, Stop, bursts_join, tokens_grow};
use outside_io::{Gate, GatePoint};
use shootdown::ProcToken;
use std::alloc::{AllocError, Global};
use std::sync::Wait;

/// A run item of the plan, with its place there.
#[derive(Clone, Copy, Debug)]
pub(crate) struct Job {
    pub(crate) item: u32,
    pub(crate) guest: GuestId,
    pub(crate) vcpu: VcpuId,
    pub(crate) steps: u64,
}

/// Waits where a turn has to, and goes on then.
fn rested<N: Starts, const G: u8, R: Wait>(
    rt: &R,
    cell: &GuestCell<N, G>,
    token: &ProcToken,
    made: Burst,
) -> Burst
    requires { Fits N.starts N.board token.now }
    ensures { result ≡ resumed made }
{
    if let Stop::Waits(page) = made.stop {
        cell.wait_turn(rt, token, page);
    }
    made.resume()
}

/// Makes turns of what is loaded on the token's processor, and waits where one has to, until there were so many steps, the virtual
/// processor has halted, the guest has ended, or memory was wanting.
fn make_turns<N: Starts, const G: u8, R: Wait, T: Gate>(
    rt: &R,
    alloc: Global,
    cell: &GuestCell<N, G>,
    token: &mut ProcToken,
    resources: &Resources,
    gate: &T,
    job: Job,
) -> Burst
    requires token { Fits N.starts N.board token.old }
    requires loaded { shown G token.old ≢ None }
    requires shared { shared_by resources.now ≡ N.shared }
    ensures told { Bursts token.old G result token.new }
    ensures few { result.steps ≤ job.steps }
    ensures all { result.stop ≡ Paused → result.steps ≡ job.steps }
    ensures going { result.stop ≡ goes_on result.stop }
{
    bursts_join();
    let mut made = Burst::new();
    for _ in rt.forever() {
        if made.steps == job.steps || made.stop != Stop::Paused {
            return made;
        }
        let at = GatePoint {
            processor: token.number(),
            guest: GuestId(G),
            vcpu: job.vcpu,
            turn: made.turns,
        };
        let burst = cell.burst(
            rt,
            alloc,
            token,
            resources,
            gate,
            at,
            job.steps - made.steps,
        );
        made = rested(rt, cell, token, made.then(burst));
    }
    unreachable!()
}

/// Why a slice with so many steps came to its end. Want of memory is none of the causes.
fn cut_of(burst: Burst, planned: u64) -> Result<Cut, AllocError>
    requires all { burst.stop ≡ Paused → burst.steps ≡ planned }
    requires few { burst.steps ≤ planned }
    requires going { burst.stop ≡ goes_on burst.stop }
    ensures { IfOk result (λ cut. (cell : ℕ) → IsCause cell planned burst.steps (as_told burst.stop) cut) }
{
    if burst.steps == planned {
        return Ok(Cut::Whole);
    }
    match burst.stop {
        Stop::Paused | Stop::Waits(_) => unreachable!(),
        Stop::VcpuHalted => Ok(Cut::VcpuHalted),
        Stop::GuestEnded(end) => Ok(Cut::GuestEnded(end)),
        Stop::Memory => Err(AllocError),
    }
}

/// The slice of a run item of which no step was made: this cut it short, unless none was planned.
fn without_steps(job: Job, cut: Cut) -> SliceRecord
    ensures { result ≡ record { item = job.item; steps = 0; cause = if job.steps == 0 then Whole else cut } }
{
    SliceRecord {
        item: job.item,
        steps: 0,
        cause: if job.steps == 0 { Cut::Whole } else { cut },
    }
}

/// Carries out a run item of the guest under this lock: loads its virtual processor, makes turns of it, and unloads it.
pub(crate) fn serve<N: Starts, const G: u8, R: Wait, T: Gate>(
    rt: &R,
    alloc: Global,
    cell: &GuestCell<N, G>,
    token: &mut ProcToken,
    resources: &Resources,
    gate: &T,
    job: Job,
) -> Result<SliceRecord, AllocError>
    requires token { Fits N.starts N.board token.old }
    requires place { HasPlace N.starts G job.vcpu.0 }
    requires cells { AreOfOneMachine N.starts }
    requires free { shown G token.old ≡ None }
    requires shared { shared_by resources.now ≡ N.shared }
    ensures served { IfOk result (λ slice. Serves (cell_in N.starts token.old.number) job.item job.vcpu job.steps token.old G slice token.new) }
    ensures same { IsSameToken token.old token.new }
{
    tokens_grow();
    bursts_join();
    match cell.load(rt, token, job.vcpu)? {
        Loaded::Done => {
            let burst = make_turns(rt, alloc, cell, token, resources, gate, job);
            cell.unload(rt, token);
            Ok(SliceRecord {
                item: job.item,
                steps: burst.steps,
                cause: cut_of(burst, job.steps)?,
            })
        }
        Loaded::On(_) => unreachable!(),
        Loaded::Ended(end) => Ok(without_steps(job, Cut::GuestEnded(end))),
        Loaded::Dead(cell) => Ok(without_steps(job, Cut::CellFailed(cell))),
    }
}
