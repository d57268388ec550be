//! The guests of a description, at their starts.
ghost use Rattle.std.specs.Prelude.{◌≡◌, ℕ, ◌*◌, ◌<◌, ◌≤◌, [], All, IfOk, List, map, length, Some, slice_get};
ghost use Rattle.guest_boot.specs.declared.source.Source.{Source};
ghost use Rattle.machine_desc.specs.declared.machine.GuestSpec.{GuestSpec};
ghost use Rattle.machine_desc.specs.Described.{described_seen};
ghost use Rattle.machine_desc.specs.Accepted.{IsDescribed};
ghost use Rattle.frame_words.specs.FrameRights.{first_view};
ghost use Rattle.frame_words.specs.Holders.{IsMade};
ghost use Rattle.node_frames.specs.Layout.{layout_of};
ghost use Rattle.node_frames.specs.Left.{first_left};
ghost use Rattle.block_caches.specs.Filling.{disks_seen};
ghost use Rattle.block_caches.specs.Holding.{AreHeld};
ghost use Rattle.boot_frames.specs.Claims.{cache_claims, page_claims};
ghost use Rattle.boot_frames.specs.Lots.{ServesAll, times_given};
ghost use Rattle.frame_words.specs.Splits.{frame_times};
ghost use Rattle.boot_frames.specs.Needs.{need_of};
ghost use Rattle.boot_frames.specs.declared.lots.Lot.{Lot};
ghost use Rattle.guest_boot.specs.Starting.{IsSource, AreSources, AreServed};
ghost use Rattle.guest_boot.specs.Booting.{home_disks, home_in, left_by_caches, AreCached, IsSite, IsSeat, board_of, AreSeats, IsLotOf, IsStarted, AreBooted, HasBooted, AreWires, HasPasses, HaveAllPasses};

use crate::{Source, SourceList};
use base_words::{CellId, CellList, GuestId, Sequence, Shape};
use block_caches::{Caches, HomeDisk, fill_caches};
use boot_frames::{
    Lot, Placed, Shortage, a_lot_holds_its_frames, each_guest_has_its_lot, needs_of,
    no_frame_is_given_twice, place,
};
use cow_disk::SharedIndex;
use frame_words::{FrameTable, Holder};
use guest_core::Guest;
use guest_course::{Around, Site};
use machine_desc::{Machine, Plan};
use shootdown::{GuestSeat, SeatList, TokenList, tokens};
use std::alloc::{AllocError, Global};
use wire_queue::{AllPasses, PassList, Wires};

/// A copy of a list.
fn copied<T: Copy>(alloc: Global, list: &Sequence<T>) -> Result<Sequence<T>, AllocError>
    ensures { IfOk result (λ copy. copy ≡ list.now) }
{
    let mut copy = Sequence::new(alloc);
    for item in list.as_slice() {
        copy.push(*item)?;
    }
    Ok(copy)
}

/// The home cell of each guest.
fn homes_of(alloc: Global, machine: &Machine) -> Result<CellList, AllocError>
    requires { All (λ (spec : GuestSpec). spec.node.0 < length machine.now.shape.cells) machine.now.guests }
    ensures { IfOk result (λ homes. map (λ c. c.0) homes ≡ map (home_in machine.now) machine.now.guests) }
{
    let mut homes = CellList::new(alloc);
    for spec in machine.guests.as_slice() {
        homes.push(machine.shape.cells.as_slice()[spec.node.0 as usize])?;
    }
    Ok(homes)
}

/// How the machine lies around a guest.
fn site_of(alloc: Global, machine: &Machine) -> Result<Site, AllocError>
    requires { All (λ (spec : GuestSpec). spec.node.0 < length machine.now.shape.cells) machine.now.guests }
    ensures { IfOk result (IsSite machine.now) }
{
    Ok(Site {
        shape: Shape {
            nodes: machine.shape.nodes,
            frames: machine.shape.frames,
            cells: copied(alloc, &machine.shape.cells)?,
        },
        processors: copied(alloc, &machine.processors)?,
        homes: homes_of(alloc, machine)?,
        policy: machine.policy,
    })
}

/// The frames of the cells' caches and of all guests, each with a holder.
fn lots_of(
    alloc: Global,
    machine: &Machine,
    plan: &Plan,
    table: &FrameTable,
    holder: &mut Holder,
) -> Result<Placed, AllocError>
    requires described { IsDescribed machine.now plan.now }
    requires served { AreServed (layout_of machine.now.shape) machine.now.lends machine.now.cache machine.now.guests }
    requires made { IsMade table.now holder.old }
    requires first { holder.old.view ≡ first_view table.now.terms }
    requires frames { table.now.terms.frames ≡ machine.now.shape.nodes * machine.now.shape.frames }
    requires fresh { table.now.terms.first ≡ 0 }
    requires lends { table.now.terms.lends ≡ machine.now.lends }
    ensures caches { IfOk result (λ placed. ServesAll table.now (layout_of machine.now.shape) (first_left (layout_of machine.now.shape) machine.now.lends) (cache_claims machine.now.cache 0 (length machine.now.lends)) placed.caches.items) }
    ensures guests { IfOk result (λ placed. ServesAll table.now (layout_of machine.now.shape) (left_by_caches machine.now) (page_claims 0 (map need_of machine.now.guests)) placed.guests.items) }
    ensures once { IfOk result (λ placed. (frame : ℕ) → times_given frame placed.guests.items ≤ 1) }
    ensures rest { IfOk result (λ placed. holder.new.view.holds ≡ []) }
    ensures same { holder.new.table ≡ holder.old.table }
{
    let _ = plan;
    let needs = needs_of(alloc, machine.guests.as_slice())?;
    let cells = machine.lends.len() as u8;
    let cache = machine.cache;
    match place(
        alloc,
        table,
        holder,
        &machine.shape,
        cells,
        cache,
        needs.as_slice(),
    ) {
        Ok(placed) => Ok(placed),
        Err(Shortage::Memory) => Err(AllocError),
        Err(Shortage::Cell { .. }) => unreachable!(),
        Err(Shortage::Guest { .. }) => unreachable!(),
    }
}

/// The guest of a seat, as the description says, with its pages on the frames of a lot.
fn boot_one(
    alloc: Global,
    machine: &Machine,
    plan: &Plan,
    number: usize,
    source: Source,
    lot: Lot,
    seat: GuestSeat,
    table: &FrameTable,
    wires: &Wires,
    passes: PassList,
    indexes: &[SharedIndex],
) -> Result<Guest, AllocError>
    requires described { IsDescribed machine.now plan.now }
    requires there { number < length machine.now.guests }
    requires source { (spec : GuestSpec) → slice_get machine.now.guests number ≡ Some spec → IsSource spec source }
    requires once { (frame : ℕ) → frame_times frame lot.frames ≤ 1 }
    requires lot { (spec : GuestSpec) → slice_get machine.now.guests number ≡ Some spec → IsLotOf machine.now table.now number spec lot }
    requires fresh { table.now.terms.first ≡ 0 }
    requires seat { IsSeat seat.board number seat }
    requires frames { table.now.terms.frames ≡ machine.now.shape.nodes * machine.now.shape.frames }
    requires lends { table.now.terms.lends ≡ machine.now.lends }
    requires wires { AreWires machine.now wires.now }
    requires passes { HasPasses wires.now number passes }
    requires cached { (sources : List Source) × AreCached (described_seen machine.now plan.now) sources table.now indexes.now }
    ensures { IfOk result (IsStarted (described_seen machine.now plan.now) source seat.board (record { table = table.now; wires = wires.now; indexes = indexes.now }) number) }
{
    a_lot_holds_its_frames();
    let _ = table;
    let _ = indexes;
    let spec = &machine.guests.as_slice()[number];
    let around = Around {
        number: GuestId(number as u8),
        // A number that is too large becomes the last one, of which no cache keeps a block.
        disk: u32::try_from(source.number.unwrap_or(0)).unwrap_or(u32::MAX),
        profile: spec.profile,
        home: spec.node,
        site: site_of(alloc, machine)?,
    };
    let Source {
        image,
        disk,
        number: _,
    } = source;
    let Lot { frames, holder } = lot;
    let input = &plan.input.as_slice()[number];
    Guest::boot(
        alloc, image, around, spec.vcpus, input, frames, disk, holder, seat, wires, passes,
    )
}

/// A guest of each source, as the description says, with its pages on the frames of its lot.
fn boot_all(
    alloc: Global,
    machine: &Machine,
    plan: &Plan,
    sources: SourceList,
    lots: Vec<Lot>,
    seats: SeatList,
    table: &FrameTable,
    wires: &Wires,
    passes: AllPasses,
    indexes: &[SharedIndex],
) -> Result<Vec<Guest>, AllocError>
    requires described { IsDescribed machine.now plan.now }
    requires sources { AreSources machine.now.guests sources }
    requires lots { ServesAll table.now (layout_of machine.now.shape) (left_by_caches machine.now) (page_claims 0 (map need_of machine.now.guests)) lots.items }
    requires fresh { table.now.terms.first ≡ 0 }
    requires once { (frame : ℕ) → times_given frame lots.items ≤ 1 }
    requires seats { AreSeats (length sources) seats }
    requires frames { table.now.terms.frames ≡ machine.now.shape.nodes * machine.now.shape.frames }
    requires lends { table.now.terms.lends ≡ machine.now.lends }
    requires wires { AreWires machine.now wires.now }
    requires passes { HaveAllPasses wires.now passes }
    requires cached { AreCached (described_seen machine.now plan.now) sources table.now indexes.now }
    ensures { IfOk result (λ guests. AreBooted (described_seen machine.now plan.now) sources (board_of seats) (record { table = table.now; wires = wires.now; indexes = indexes.now }) guests.items) }
{
    each_guest_has_its_lot();
    no_frame_is_given_twice();
    let mut seats = seats.into_vec().into_iter();
    let mut lots = lots.into_iter();
    let mut passes = passes.into_vec().into_iter();
    let mut guests: Vec<Guest> = Vec::new(alloc);
    for source in sources.into_vec() {
        let Some(seat) = seats.next() else {
            unreachable!();
        };
        let Some(lot) = lots.next() else {
            unreachable!();
        };
        let Some(ends) = passes.next() else {
            unreachable!();
        };
        let number = guests.len();
        guests.push(boot_one(
            alloc, machine, plan, number, source, lot, seat, table, wires, ends, indexes,
        )?)?;
    }
    Ok(guests)
}

/// The disks of the guests that have one, each with its guest's home cell.
fn disks_of<'a>(
    alloc: Global,
    sources: &'a [Source],
    homes: &[CellId],
) -> Result<Vec<HomeDisk<'a>>, AllocError>
    requires { length sources.now ≡ length homes.now }
    ensures { IfOk result (λ disks. disks_seen disks.items ≡ home_disks (map (λ c. c.0) homes.now) sources.now) }
{
    let mut disks = Vec::new(alloc);
    for (guest, source) in sources.iter().enumerate() {
        if let Some(number) = source.number {
            disks.push(HomeDisk {
                cell: homes[guest],
                number,
                disk: &source.disk,
            })?;
        }
    }
    Ok(disks)
}

/// The cells' caches over the frames of these lots.
fn caches_of(
    alloc: Global,
    machine: &Machine,
    plan: &Plan,
    sources: &SourceList,
    lots: Vec<Lot>,
    table: &FrameTable,
    homes: &CellList,
) -> Result<Caches, AllocError>
    requires described { IsDescribed machine.now plan.now }
    requires sources { AreSources machine.now.guests sources.now }
    requires lots { ServesAll table.now (layout_of machine.now.shape) (first_left (layout_of machine.now.shape) machine.now.lends) (cache_claims machine.now.cache 0 (length machine.now.lends)) lots.items }
    requires homes { map (λ c. c.0) homes.now ≡ map (home_in machine.now) machine.now.guests }
    ensures cached { IfOk result (λ c. AreCached (described_seen machine.now plan.now) sources.now table.now c.indexes.items) }
    ensures held { IfOk result (λ c. AreHeld table.now c.indexes.items c.holders.items) }
{
    let _ = table;
    let _ = machine;
    let _ = plan;
    let disks = disks_of(alloc, sources.as_slice(), homes.as_slice())?;
    fill_caches(alloc, lots, disks.as_slice(), sources.len())
}

/// What a run begins with: the guests of a description, a token for each of its processors, the table of the guests' frames with its
/// first holder, which has nothing, the wires between the guests, and the cells' caches.
#[derive(Drop)]
pub struct Booted {
    pub guests: Vec<Guest>,
    pub tokens: TokenList,
    pub table: FrameTable,
    pub holder: Holder,
    pub wires: Wires,
    pub caches: Caches,
}

/// The guests of a description, each of its source and on the frames of its lot, with all that their run begins with. The cells' caches are
/// filled. An error is want of memory.
pub fn boot(
    alloc: Global,
    machine: &Machine,
    plan: &Plan,
    sources: SourceList,
) -> Result<Booted, AllocError>
    requires described { IsDescribed machine.now plan.now }
    requires served { AreServed (layout_of machine.now.shape) machine.now.lends machine.now.cache machine.now.guests }
    requires sources { AreSources machine.now.guests sources }
    ensures booted { IfOk result (λ b. HasBooted (described_seen machine.now plan.now) sources b.guests.items b.tokens (record { table = b.table; wires = b.wires; indexes = b.caches.indexes.items }) b.holder) }
    ensures held { IfOk result (λ b. AreHeld b.table b.caches.indexes.items b.caches.holders.items) }
    ensures frames { IfOk result (λ b. b.table.terms.frames ≡ machine.now.shape.nodes * machine.now.shape.frames) }
    ensures lends { IfOk result (λ b. b.table.terms.lends ≡ machine.now.lends) }
{
    let frames = u32::from(machine.shape.nodes) * machine.shape.frames;
    let (table, mut holder) = FrameTable::new(alloc, frames, machine.lends.as_slice(), 0)?;
    let Placed {
        caches: cache_lots,
        guests: lots,
    } = lots_of(alloc, machine, plan, &table, &mut holder)?;
    let count = sources.len() as u8;
    let (tokens, seats) = tokens(alloc, machine.processors.len() as u8, count)?;
    let homes = homes_of(alloc, machine)?;
    let caches = caches_of(alloc, machine, plan, &sources, cache_lots, &table, &homes)?;
    let (wires, passes) = Wires::new(alloc, count, &machine.shape, &homes)?;
    let guests = boot_all(
        alloc,
        machine,
        plan,
        sources,
        lots,
        seats,
        &table,
        &wires,
        passes,
        &caches.indexes,
    )?;
    Ok(Booted {
        guests,
        tokens,
        table,
        holder,
        wires,
        caches,
    })
}
