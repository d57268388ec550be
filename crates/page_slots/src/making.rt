//! How slots and their callers are made.
ghost use Rattle.std.specs.Prelude.{◌≡◌, ◌<◌, ◌≤◌, [], ◌∷◌, replicate, length, Some, IfOk};
ghost use Rattle.page_slots.specs.Steps.{first_view};
ghost use Rattle.page_slots.specs.Views.{blank_from, first, free_with, list_of, others};
ghost use Rattle.page_slots.specs.Making.{AreFresh, callers_from, fresh_caller};

use crate::caller::{Caller, CallerList};
use crate::kept::KeptPage;
use crate::protocol::{Hand, PageTable, Pages, Parts, Slot, Terms};
use crate::slots::PageSlots;
use atomic_table::{Refused, Table};
use std::alloc::{AllocError, Global};

// A page for each slot, all of zeros and without a history.
fn blank_pages(alloc: Global, count: u32) -> Result<Vec<Slot>, AllocError>
    ensures { IfOk result (λ slots. slots.items ≡ replicate count (Some [])) }
{
    let mut slots = Vec::new(alloc);
    for _made in 0..count {
        slots.push(Some(KeptPage::blank(alloc)?))?;
    }
    Ok(slots)
}

// A word for each page, at 0.
fn zero_words(alloc: Global, count: u32) -> Result<Vec<u64>, AllocError>
    ensures { IfOk result (λ words. words.items ≡ replicate count 0) }
{
    Ok(vec![in alloc; 0u64; count as usize]?)
}

// The table of the pages, and who carries all numbers.
fn table_of(alloc: Global, terms: Terms) -> Result<(PageTable, Hand), AllocError>
    ensures table { IfOk result (λ made. (made.0.shared.key ≡ terms) × (made.0.shared.table_id.words ≡ terms.pages) × (made.0.shared.table_id.slots ≡ terms.pages)) }
    ensures hand { IfOk result (λ made. (made.1.table_id ≡ made.0.shared.table_id) × (made.1.me ≡ (first_view terms, []))) }
{
    let slots = blank_pages(alloc, terms.pages)?;
    let words = zero_words(alloc, terms.pages)?;
    match Table::new(alloc, words.as_slice(), slots, &terms) {
        Ok(made) => Ok(made),
        Err(_) => Err(AllocError),
    }
}

// The caller whose number is the first of those that are left.
fn cut_caller(pages: &Pages, all: &mut Hand, number: u8) -> Caller
    requires table { (all.old.table_id ≡ pages.now.table_id) × (0 < pages.now.table_id.words) }
    requires first { first all.old.me.0.lists ≡ list_of number [] ∷ [] }
    requires free { all.old.me ≡ (free_with all.old.me.0.lists, []) }
    ensures table { all.new.table_id ≡ all.old.table_id }
    ensures left { all.new.me ≡ (free_with (others all.old.me.0.lists), []) }
    ensures caller { result ≡ fresh_caller all.old.table_id number }
{
    Caller {
        number,
        made: 0,
        hand: pages.split_seat::<Parts>(all),
    }
}

// All callers.
fn cut_callers(
    alloc: Global,
    pages: &Pages,
    all: &mut Hand,
    count: u8,
) -> Result<Vec<Caller>, AllocError>
    requires table { (all.old.table_id ≡ pages.now.table_id) × (0 < pages.now.table_id.words) }
    requires all { all.old.me ≡ (free_with (blank_from 0 count), []) }
    ensures { IfOk result (λ callers. callers.items ≡ callers_from all.old.table_id 0 count) }
{
    let mut callers = Vec::new(alloc);
    for number in 0..count {
        callers.push(cut_caller(pages, all, number))?;
    }
    Ok(callers)
}

impl PageSlots {
    /// Pages of zeros with empty histories, and callers that are numbered from 0. An error is want of memory.
    pub fn new(
        alloc: Global,
        pages: u32,
        callers: u8,
    ) -> Result<(PageSlots, CallerList), AllocError>
        requires pages { (0 < pages) × (pages ≤ 16) }
        requires callers { (0 < callers) × (callers ≤ 16) }
        ensures { IfOk result (λ made. AreFresh made.0 pages callers made.1) }
    {
        let terms = Terms { pages, callers };
        let (table, mut all) = table_of(alloc, terms)?;
        let room = Vec::with_capacity(alloc, pages as usize)?;
        let callers = cut_callers(alloc, &table.shared, &mut all, callers)?;
        let slots = PageSlots {
            table,
            terms,
            alloc,
            room,
        };
        Ok((slots, CallerList::from_vec(callers)))
    }
}
