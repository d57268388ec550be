//! The items of one processor, carried out in their order.
ghost use Rattle.std.specs.Prelude.{◌≡◌, ◌≤◌, ◌<◌, ◌∷◌, ◌++◌, ◌^◌, None, [], All, IfOk, OnOk, length};
ghost use Rattle.guest_core.specs.Asks.{note_of};
ghost use Rattle.guest_core.specs.GuestView.{shared_by};
ghost use Rattle.guest_lock.specs.Fits.{Fits};
ghost use Rattle.guest_lock.specs.Guests.{IsThere};
ghost use Rattle.guest_lock.specs.Told.{shown, with_told};
ghost use Rattle.plan_due.specs.Planned.{planned};
ghost use Rattle.plan_due.specs.Slices.{own, AreTold};
ghost use Rattle.run_workers.specs.Parts.{as_list};
ghost use Rattle.run_workers.specs.Working.{cell_in, machine_of, AreOfOneMachine, wish_for, is_own as is_own_of, IsSameToken, HasPlace, HasMove, ItemFits, Serves, CarriesOne};

use crate::serving::{Job, serve};
use base_words::{GuestId, MoveKind, NodeId, Ppn, ProcId};
use guest_core::{Asked, FailureRecord, Resources, SliceRecord};
use guest_lock::{GuestCell, GuestCells, Starts, fail_all};
use machine_desc::Item;
use outside_io::Gate;
use plan_due::{Outcome, items_unload};
use shootdown::ProcToken;
use std::alloc::{AllocError, Global};
use std::sync::Wait;

/// Carries out a run item of a guest that there is.
fn serve_at<N: Starts, const G: u8, R: Wait, T: Gate>(
    rt: &R,
    alloc: Global,
    cell: &Option<GuestCell<N, G>>,
    token: &mut ProcToken,
    resources: &Resources,
    gate: &T,
    job: Job,
) -> Result<SliceRecord, AllocError>
    requires there { IsThere cell.now G N.starts }
    requires token { Fits N.starts N.board token.old }
    requires place { HasPlace N.starts G job.vcpu.0 }
    requires cells { AreOfOneMachine N.starts }
    requires free { shown G token.old ≡ None }
    requires shared { shared_by resources.now ≡ N.shared }
    ensures served { IfOk result (λ slice. Serves (cell_in N.starts token.old.number) job.item job.vcpu job.steps token.old G slice token.new) }
    ensures same { IsSameToken token.old token.new }
{
    match cell {
        Some(cell) => serve(rt, alloc, cell, token, resources, gate, job),
        None => unreachable!(),
    }
}

/// Carries out a run item.
fn serve_job<N: Starts, R: Wait, T: Gate>(
    rt: &R,
    alloc: Global,
    cells: &GuestCells<N>,
    token: &mut ProcToken,
    resources: &Resources,
    gate: &T,
    job: Job,
) -> Result<SliceRecord, AllocError>
    requires few { length N.starts ≤ 8 }
    requires token { Fits N.starts N.board token.old }
    requires place { HasPlace N.starts job.guest.0 job.vcpu.0 }
    requires cells { AreOfOneMachine N.starts }
    requires free { shown job.guest.0 token.old ≡ None }
    requires shared { shared_by resources.now ≡ N.shared }
    ensures served { IfOk result (λ slice. Serves (cell_in N.starts token.old.number) job.item job.vcpu job.steps token.old job.guest.0 slice token.new) }
    ensures same { IsSameToken token.old token.new }
{
    match job.guest.0 {
        0 => serve_at(rt, alloc, &cells.zero, token, resources, gate, job),
        1 => serve_at(rt, alloc, &cells.one, token, resources, gate, job),
        2 => serve_at(rt, alloc, &cells.two, token, resources, gate, job),
        3 => serve_at(rt, alloc, &cells.three, token, resources, gate, job),
        4 => serve_at(rt, alloc, &cells.four, token, resources, gate, job),
        5 => serve_at(rt, alloc, &cells.five, token, resources, gate, job),
        6 => serve_at(rt, alloc, &cells.six, token, resources, gate, job),
        7 => serve_at(rt, alloc, &cells.seven, token, resources, gate, job),
        _ => unreachable!(),
    }
}

/// A move of a guest's page that the plan asks for.
#[derive(Clone, Copy, Debug)]
struct MoveJob {
    guest: GuestId,
    page: Ppn,
    kind: MoveKind,
    node: NodeId,
}

/// Asks for a move of a guest that there is.
fn ask_at<N: Starts, const G: u8, R: Wait>(
    rt: &R,
    alloc: Global,
    cell: &Option<GuestCell<N, G>>,
    token: &mut ProcToken,
    resources: &Resources,
    job: MoveJob,
) -> Result<(), AllocError>
    requires there { IsThere cell.now G N.starts }
    requires token { Fits N.starts N.board token.old }
    requires place { HasMove N.starts G (wish_for job.page job.kind job.node) }
    requires free { shown G token.old ≡ None }
    requires shared { shared_by resources.now ≡ N.shared }
    ensures told { OnOk result (token.new ≡ with_told token.old G (note_of (wish_for job.page job.kind job.node) ∷ [])) }
    ensures same { IsSameToken token.old token.new }
{
    let Some(cell) = cell else {
        unreachable!();
    };
    match cell.ask(rt, alloc, token, job.page, job.kind, job.node, resources)? {
        Asked::Begun | Asked::Skipped => Ok(()),
        Asked::Busy(_) => unreachable!(),
    }
}

/// Asks for a move.
fn ask_job<N: Starts, R: Wait>(
    rt: &R,
    alloc: Global,
    cells: &GuestCells<N>,
    token: &mut ProcToken,
    resources: &Resources,
    job: MoveJob,
) -> Result<(), AllocError>
    requires few { length N.starts ≤ 8 }
    requires token { Fits N.starts N.board token.old }
    requires place { HasMove N.starts job.guest.0 (wish_for job.page job.kind job.node) }
    requires free { shown job.guest.0 token.old ≡ None }
    requires shared { shared_by resources.now ≡ N.shared }
    ensures told { OnOk result (token.new ≡ with_told token.old job.guest.0 (note_of (wish_for job.page job.kind job.node) ∷ [])) }
    ensures same { IsSameToken token.old token.new }
{
    match job.guest.0 {
        0 => ask_at(rt, alloc, &cells.zero, token, resources, job),
        1 => ask_at(rt, alloc, &cells.one, token, resources, job),
        2 => ask_at(rt, alloc, &cells.two, token, resources, job),
        3 => ask_at(rt, alloc, &cells.three, token, resources, job),
        4 => ask_at(rt, alloc, &cells.four, token, resources, job),
        5 => ask_at(rt, alloc, &cells.five, token, resources, job),
        6 => ask_at(rt, alloc, &cells.six, token, resources, job),
        7 => ask_at(rt, alloc, &cells.seven, token, resources, job),
        _ => unreachable!(),
    }
}

/// Whether an item is one of a processor.
fn is_own(item: Item, processor: ProcId) -> bool
    ensures { result ≡ is_own_of processor.0 item }
{
    match item {
        Item::Run { processor: of, .. } => of == processor,
        Item::Move { processor: of, .. } => of == processor,
        Item::Fail { processor: of, .. } => of == processor,
    }
}

/// Carries out an item, if it is one of the token's processor.
fn carry_one<N: Starts, R: Wait, T: Gate>(
    rt: &R,
    alloc: Global,
    cells: &GuestCells<N>,
    token: &mut ProcToken,
    resources: &Resources,
    gate: &T,
    number: u32,
    item: Item,
) -> Result<Option<Outcome>, AllocError>
    requires few { length N.starts ≤ 8 }
    requires token { Fits N.starts N.board token.old }
    requires place { ItemFits N.starts item }
    requires cells { AreOfOneMachine N.starts }
    requires free { (g : _) → shown g token.old ≡ None }
    requires shared { shared_by resources.now ≡ N.shared }
    ensures carried { IfOk result (λ outcome. CarriesOne (machine_of N.starts) number item token.old outcome token.new) }
    ensures same { IsSameToken token.old token.new }
{
    if !is_own(item, token.number()) {
        return Ok(None);
    }
    match item {
        Item::Run {
            guest,
            vcpu,
            steps,
            ..
        } => {
            let job = Job {
                item: number,
                guest,
                vcpu,
                steps,
            };
            let slice = serve_job(rt, alloc, cells, token, resources, gate, job)?;
            Ok(Some(Outcome::Slice(slice)))
        }
        Item::Move {
            guest,
            page,
            kind,
            node,
            ..
        } => {
            let job = MoveJob {
                guest,
                page,
                kind,
                node,
            };
            ask_job(rt, alloc, cells, token, resources, job)?;
            Ok(Some(Outcome::Asked))
        }
        Item::Fail { cell, .. } => {
            let ended = fail_all(rt, alloc, token, cells, cell, resources)?;
            Ok(Some(Outcome::Failure(FailureRecord {
                item: number,
                cell,
                ended,
            })))
        }
    }
}

/// Adds an outcome, if there is one.
fn add(outcomes: &mut Vec<Outcome>, outcome: Option<Outcome>) -> Result<(), AllocError>
    ensures { OnOk result (outcomes.new.items ≡ outcomes.old.items ++ as_list outcome) }
{
    if let Some(outcome) = outcome {
        outcomes.push(outcome)?;
    }
    Ok(())
}

/// Carries out the items of the token's processor, in their order, and tells what came of each.
pub(crate) fn carry_out<N: Starts, R: Wait, T: Gate>(
    rt: &R,
    alloc: Global,
    cells: &GuestCells<N>,
    token: &mut ProcToken,
    resources: &Resources,
    gate: &T,
    items: &[Item],
) -> Result<Vec<Outcome>, AllocError>
    requires few { length N.starts ≤ 8 }
    requires few_items { length items.now < 2 ^ 32 }
    requires token { Fits N.starts N.board token.old }
    requires places { All (ItemFits N.starts) items.now }
    requires cells { AreOfOneMachine N.starts }
    requires no_notes { token.old.notes ≡ [] }
    requires shared { shared_by resources.now ≡ N.shared }
    ensures told { IfOk result (λ outcomes. AreTold (machine_of N.starts) (own token.new.number (planned 0 items.now)) outcomes.items token.new.notes) }
    ensures same { IsSameToken token.old token.new }
{
    items_unload();
    let mut outcomes = Vec::new(alloc);
    for (number, item) in items.iter().enumerate() {
        let outcome = carry_one(
            rt,
            alloc,
            cells,
            token,
            resources,
            gate,
            number as u32,
            *item,
        )?;
        add(&mut outcomes, outcome)?;
    }
    Ok(outcomes)
}
