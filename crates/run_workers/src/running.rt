//! A plan's run.
ghost use Rattle.std.specs.Prelude.{◌≡◌, ◌*◌, [], IfOk, List, map};
ghost use Rattle.frame_words.specs.Holders.{IsMade};
ghost use Rattle.node_frames.specs.Layout.{layout_of};
ghost use Rattle.isolation_law.specs.Start.{Boot};
ghost use Rattle.machine_desc.specs.Described.{described_seen};
ghost use Rattle.machine_desc.specs.Accepted.{IsDescribed};
ghost use Rattle.guest_boot.specs.Starting.{AreSources, AreStarts, AreServed};
ghost use Rattle.run_workers.specs.WholeRecord.{IsWhole};
ghost use Rattle.guest_boot.specs.Booting.{start_of};
ghost use Rattle.wire_queue.specs.PassLists.{AreAllOf};
ghost use Rattle.run_workers.specs.Named.{board_of_tokens, MayRun, IsRunOf};

use crate::draining::settle_all;
use crate::ending::end_all;
use crate::ordering::in_order;
use crate::workers::{all_work, parts, workers_of};
use block_caches::end_caches;
use cow_disk::SharedIndex;
use frame_words::{FrameTable, Holder, close};
use guest_boot::{SourceList, boot, sources_are_their_guests};
use guest_core::{Guest, Resources, RunRecord};
use guest_lock::{GuestCells, Starts};
use machine_desc::{Machine, Plan};
use outside_io::Gate;
use plan_due::plans_are_due;
use shootdown::{TokenList, close_notes};
use std::alloc::{AllocError, Global};
use std::marker::Brand;
use std::sync::Wait;
use std::thread::Threads;
use wire_queue::{AllPasses, Wires};

/// The run that is named by its guests' starts, by its tokens' board, and by what its guests share. The first holder is left with nothing,
/// and each guest's ends of the wires are left.
fn run_named<N: Starts + Send + Sync, R: Threads + Wait + Sync, G: Gate>(
    rt: &R,
    alloc: Global,
    guests: Vec<Guest>,
    tokens: TokenList,
    table: &FrameTable,
    first: &mut Holder,
    wires: &Wires,
    indexes: &[SharedIndex],
    plan: &Plan,
    gate: &G,
) -> Result<(RunRecord, AllPasses), AllocError>
    requires starts { N.starts ≡ map start_of guests.items }
    requires board { N.board ≡ board_of_tokens tokens }
    requires shared { N.shared ≡ record { table = table.now; wires = wires.now; indexes = indexes.now } }
    requires may { MayRun guests.items tokens (record { table = table.now; wires = wires.now; indexes = indexes.now }) plan.now.items }
    requires made { IsMade table.now first.old }
    requires nothing { first.old.view.holds ≡ [] }
    ensures run { IfOk result (λ out. IsRunOf (map start_of guests.items) plan.now.items wires.now out.0 out.1) }
    ensures passes { IfOk result (λ out. AreAllOf wires.now out.1) }
    ensures nothing { IfOk result (λ out. first.new.view.holds ≡ []) }
    ensures same { IfOk result (λ out. first.new.table ≡ first.old.table) }
{
    plans_are_due();
    let resources = Resources {
        table,
        wires,
        indexes,
    };
    let cells: GuestCells<N> = GuestCells::new(guests);
    let mut workers = workers_of(alloc, tokens)?;
    all_work(rt, alloc, &cells, &resources, plan, gate, &mut workers);
    let (tokens, queues) = parts(alloc, workers)?;
    let settled = settle_all::<N, R>(rt, alloc, cells.take_out(alloc)?, &resources)?;
    let (guests, passes, seats) = end_all::<N>(alloc, settled, &resources, first)?;
    close_notes(tokens, seats);
    let (slices, failures) = in_order(alloc, plan.items.as_slice(), queues)?;
    let record = RunRecord {
        guests,
        slices,
        failures,
    };
    Ok((record, passes))
}

/// What a run leaves: its record, the table of the guests' frames with its first holder, which has nothing, and the wires between the
/// guests with all ends of theirs.
#[derive(Drop)]
pub struct Finished {
    pub record: RunRecord,
    pub table: FrameTable,
    pub holder: Holder,
    pub wires: Wires,
    pub passes: AllPasses,
}

/// Starts the guests and carries the plan out, and hands out what the run leaves: the guests and the caches have given their frames back. An
/// error is want of memory.
pub fn finish<R: Threads + Wait + Sync, G: Gate>(
    rt: &R,
    alloc: Global,
    machine: &Machine,
    plan: &Plan,
    sources: SourceList,
    gate: &G,
) -> Result<Finished, AllocError>
    requires described { IsDescribed machine.now plan.now }
    requires sources { AreSources machine.now.guests sources }
    requires served { AreServed (layout_of machine.now.shape) machine.now.lends machine.now.cache machine.now.guests }
    ensures run { IfOk result (λ f. (boots : List Boot) × AreStarts (described_seen machine.now plan.now) 0 machine.now.guests sources plan.now.input boots × IsRunOf boots plan.now.items f.wires f.record f.passes) }
    ensures made { IfOk result (λ f. IsMade f.table f.holder) }
    ensures nothing { IfOk result (λ f. f.holder.view.holds ≡ []) }
    ensures passes { IfOk result (λ f. AreAllOf f.wires f.passes) }
    ensures frames { IfOk result (λ f. f.table.terms.frames ≡ machine.now.shape.nodes * machine.now.shape.frames) }
    ensures lends { IfOk result (λ f. f.table.terms.lends ≡ machine.now.lends) }
{
    sources_are_their_guests();
    let mut booted = boot(alloc, machine, plan, sources)?;
    let (record, passes) = run_named::<Brand, R, G>(
        rt,
        alloc,
        booted.guests,
        booted.tokens,
        &booted.table,
        &mut booted.holder,
        &booted.wires,
        &booted.caches.indexes,
        plan,
        gate,
    )?;
    end_caches(booted.caches, &booted.table, &mut booted.holder);
    Ok(Finished {
        record,
        table: booted.table,
        holder: booted.holder,
        wires: booted.wires,
        passes,
    })
}

/// Starts the guests and carries the plan out. At the end each guest and each cache has given its frames back.
pub fn run<R: Threads + Wait + Sync, G: Gate>(
    rt: &R,
    alloc: Global,
    machine: &Machine,
    plan: &Plan,
    sources: SourceList,
    gate: &G,
) -> Result<RunRecord, AllocError>
    requires described { IsDescribed machine.now plan.now }
    requires sources { AreSources machine.now.guests sources }
    requires served { AreServed (layout_of machine.now.shape) machine.now.lends machine.now.cache machine.now.guests }
    ensures { IfOk result (λ out. (boots : List Boot) × AreStarts (described_seen machine.now plan.now) 0 machine.now.guests sources plan.now.input boots × IsWhole (described_seen machine.now plan.now) boots out) }
{
    let finished = finish(rt, alloc, machine, plan, sources, gate)?;
    close(finished.table, finished.holder);
    finished.wires.close(finished.passes);
    Ok(finished.record)
}
