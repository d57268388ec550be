//! Which pages have an open move, by the processors that they wait for, kept so that the lowest is found without a search.
ghost use Rattle.std.specs.Prelude.{◌≡◌, ◌≢◌, ℕ, ◌<◌, false, IfOk, IfSome, IfNone, List, [], None, length, option_map, slice_index_or};
ghost use Rattle.base_words.specs.Limits.{most_processors};
ghost use Rattle.base_words.specs.declared.ids.Ppn.{Ppn};
ghost use Rattle.private_machine.specs.Backing.{Page, page_at};
ghost use Rattle.pmap_table.specs.OpenMoves.{move_of};
ghost use Rattle.pmap_table.specs.PageSets.{has_page, IsLowestIn};
ghost use Rattle.pmap_table.specs.Tracking.{waits_in, ready_in, set_for, TracksMove, SameAt, Tracks};

use crate::open_move::PendingMove;
use crate::page_set::PageSet;
use base_words::{MOST_PROCESSORS, Ppn, ProcId};
use std::alloc::{AllocError, Global};

/// For each processor the pages whose moves it hasn't acknowledged, and the pages whose moves all have acknowledged and no
/// operation ends.
#[derive(Drop)]
pub(crate) struct OpenPages {
    pub(crate) waiting: Vec<PageSet>,
    pub(crate) ready: PageSet,
}

/// Whether a processor has still to acknowledge this move.
fn is_waited(pending: &Option<PendingMove>, processor: ProcId) -> bool
    requires { processor.0 < most_processors }
    ensures { result ≡ waits_in processor.0 (option_map move_of pending.now) }
{
    match pending {
        Some(pending) => pending.waiting.has(processor),
        None => false,
    }
}

/// Whether all have acknowledged this move, and no operation ends it.
fn is_acknowledged(pending: &Option<PendingMove>) -> bool
    ensures { result ≡ ready_in (option_map move_of pending.now) }
{
    match pending {
        Some(pending) => !pending.change.is_taking() && pending.waiting.is_empty(),
        None => false,
    }
}

/// A set without a page for each processor.
fn empty_sets(alloc: Global) -> Result<Vec<PageSet>, AllocError>
    ensures sized { IfOk result (λ sets. length sets.items ≡ most_processors) }
    ensures empty { IfOk result (λ sets. (p q : ℕ) → has_page (slice_index_or sets.items p []) q ≡ false) }
{
    let mut sets = Vec::with_capacity(alloc, MOST_PROCESSORS)?;
    for _processor in 0..MOST_PROCESSORS {
        sets.push(PageSet::empty())?;
    }
    Ok(sets)
}

impl OpenPages {
    /// No page has an open move.
    pub(crate) fn none(alloc: Global) -> Result<Self, AllocError>
        ensures { IfOk result (λ sets. (pages : List Page) → ((q : ℕ) → (page_at pages q).move ≡ None) → Tracks sets pages) }
    {
        Ok(OpenPages {
            waiting: empty_sets(alloc)?,
            ready: PageSet::empty(),
        })
    }

    /// Notes what the move of a page is now.
    #[cold]
    #[inline(never)]
    pub(crate) fn track(&mut self, page: Ppn, pending: &Option<PendingMove>)
        requires page { page.0 < 2048 }
        requires sized { length self.old.waiting.items ≡ most_processors }
        ensures sized { length self.new.waiting.items ≡ most_processors }
        ensures here { TracksMove self.new page.0 (option_map move_of pending.now) }
        ensures others { (r : ℕ) → r ≢ page.0 → SameAt self.old self.new r }
    {
        for processor in 0..MOST_PROCESSORS as u8 {
            let waits = is_waited(pending, ProcId(processor));
            self.waiting[processor as usize].put(page, waits);
        }
        self.ready.put(page, is_acknowledged(pending));
    }

    /// The lowest page that waits for a processor.
    #[inline]
    pub(crate) fn first_waiting(&self, processor: ProcId) -> Option<Ppn>
        requires processor { processor.0 < most_processors }
        requires sized { length self.now.waiting.items ≡ most_processors }
        ensures some { IfSome result (λ (q : Ppn). IsLowestIn (set_for self.now processor.0) q.0) }
        ensures none { IfNone result ((q : ℕ) → has_page (set_for self.now processor.0) q ≡ false) }
    {
        self.waiting[processor.0 as usize].first()
    }

    /// The lowest page whose move is ready to be finished.
    #[inline]
    pub(crate) fn first_ready(&self) -> Option<Ppn>
        ensures some { IfSome result (λ (q : Ppn). IsLowestIn self.now.ready q.0) }
        ensures none { IfNone result ((q : ℕ) → has_page self.now.ready q ≡ false) }
    {
        self.ready.first()
    }
}
