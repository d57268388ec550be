//! The journal: the runs that have ended, and the one that goes on.
ghost use Rattle.std.specs.Prelude.{◌≡◌, ◌+◌, ◌-◌, min, ◌<◌, ◌≤◌, ◌^◌, ℕ, [], ◌∷◌, ◌++◌, length, replicate, OnOk, OnErr, IsTrue, ◌↔◌};
ghost use Rattle.base_words.specs.declared.events.Event.TheVariants.{Direct};
ghost use Rattle.event_journal.specs.Runs.{entries_of};
ghost use Rattle.event_journal.specs.RunCount.{HasRuns};

use crate::marks::{NO_DIRECT, direct_mark, mark_of};
use crate::run::{end_run, is_one_more};
use crate::{Run, Runs};
use base_words::{Event, ProcId, VcpuId};
use std::alloc::{AllocError, Global};
use std::marker::Model;

/// A guest's journal, at most 2^64 - 1 entries.
#[derive(Debug, Drop)]
pub struct Journal {
    /// The runs that have ended.
    ended: Vec<Run>,
    /// How many entries these are.
    before: u64,
    /// The entry of the run that goes on, none before the first.
    last: Option<Event>,
    /// How many entries there are.
    entries: u64,
    /// The mark of the last entry.
    mark: u32,
}

impl Model for Journal {
    ghost use Rattle.std.specs.Prelude.{vec_len, vec_capacity};
    ghost use Rattle.event_journal.specs.JournalView.{JournalView};

    ghost Value = { JournalView };

    ghost use Rattle.event_journal.specs.Parts.{view_of, Agree};

    ghost view = { λ j. view_of (vec_capacity j.ended) j.ended.items j.before j.last j.entries };

    ghost invariant = { λ j. Agree j.ended.items j.before j.last j.entries j.mark };
}

impl Journal {
    /// No entries. Takes no memory yet.
    pub fn new(alloc: Global) -> Self
        ensures { result ≡ record { entries = []; room = 0 } }
    {
        Journal {
            ended: Vec::new(alloc),
            before: 0,
            last: None,
            entries: 0,
            mark: NO_DIRECT,
        }
    }

    /// How many entries can come with no memory.
    pub fn room(&self) -> usize
        ensures room { result ≡ self.now.room }
        ensures counted { length self.now.entries + result < 2 ^ 64 }
    {
        let entries = self.entries;
        let places = self.ended.capacity() - self.ended.len();
        places.min((u64::MAX - entries) as usize)
    }

    /// Whether so many entries can come with no memory.
    #[inline]
    pub fn has_room(&self, count: usize) -> bool
        ensures { IsTrue result ↔ (count ≤ self.now.room) }
    {
        let entries = self.entries;
        count <= self.ended.capacity() - self.ended.len() && count as u64 <= u64::MAX - entries
    }

    /// Makes room for so many entries. Err where memory is wanting, or where there would be 2^64 entries; nothing has then
    /// changed.
    #[inline]
    pub fn reserve(&mut self, count: usize) -> Result<(), AllocError>
        ensures entries { self.new.entries ≡ self.old.entries }
        ensures room { self.old.room ≤ self.new.room }
        ensures ok { OnOk result (count ≤ self.new.room) }
        ensures full { OnErr result (self.old.room < count) }
        ensures unchanged { OnErr result (self.new ≡ self.old) }
    {
        if self.has_room(count) {
            return Ok(());
        }
        self.grow(count)
    }

    /// Makes room that isn't there.
    #[cold]
    #[inline(never)]
    fn grow(&mut self, count: usize) -> Result<(), AllocError>
        requires { self.old.room < count }
        ensures entries { self.new.entries ≡ self.old.entries }
        ensures room { self.old.room ≤ self.new.room }
        ensures ok { OnOk result (count ≤ self.new.room) }
        ensures unchanged { OnErr result (self.new ≡ self.old) }
    {
        if (u64::MAX - self.entries) < count as u64 {
            return Err(AllocError);
        }
        self.ended.reserve(count)
    }

    /// Puts an entry at the end.
    pub fn push(&mut self, event: Event)
        requires { 0 < self.old.room }
        ensures entries { self.new.entries ≡ self.old.entries ++ event ∷ [] }
        ensures room { self.old.room ≤ self.new.room + 1 }
    {
        if is_one_more(self.last, event) {
            self.entries += 1;
            return;
        }
        end_run(&mut self.ended, self.last, self.entries - self.before);
        self.before = self.entries;
        self.last = Some(event);
        self.entries += 1;
        self.mark = mark_of(event);
    }

    /// Puts a Direct entry at the end, mostly one more of the last run.
    #[inline]
    pub fn push_direct(&mut self, processor: ProcId, vcpu: VcpuId)
        requires { 0 < self.old.room }
        ensures entries { self.new.entries ≡ self.old.entries ++ Direct processor vcpu ∷ [] }
        ensures room { self.old.room ≤ self.new.room + 1 }
    {
        if self.mark == direct_mark(processor, vcpu) {
            self.entries += 1;
        } else {
            self.push_first_direct(processor, vcpu);
        }
    }

    /// Puts a Direct entry at the end that begins a run.
    #[cold]
    #[inline(never)]
    fn push_first_direct(&mut self, processor: ProcId, vcpu: VcpuId)
        requires { 0 < self.old.room }
        ensures entries { self.new.entries ≡ self.old.entries ++ Direct processor vcpu ∷ [] }
        ensures room { self.old.room ≤ self.new.room + 1 }
    {
        self.push(Event::Direct(processor, vcpu));
    }

    /// Puts so many Direct entries at the end, mostly more of the last run. They need room for one.
    #[inline]
    pub fn push_directs(&mut self, processor: ProcId, vcpu: VcpuId, count: u64)
        requires room { 0 < self.old.room }
        requires few { length self.old.entries + count < 2 ^ 64 }
        ensures entries { self.new.entries ≡ self.old.entries ++ replicate count (Direct processor vcpu) }
        ensures room { min (self.old.room - 1) (2 ^ 64 - 1 - length self.new.entries) ≤ self.new.room }
        ensures none { count ≡ 0 → self.new ≡ self.old }
    {
        if count == 0 {
            return;
        }
        self.push_direct(processor, vcpu);
        self.entries += count - 1;
    }

    /// How many entries there are.
    #[inline]
    pub fn len(&self) -> u64
        ensures { result ≡ length self.now.entries }
    {
        self.entries
    }

    /// Whether there is no entry.
    #[inline]
    pub fn is_empty(&self) -> bool
        ensures { IsTrue result ↔ (self.now.entries ≡ []) }
    {
        self.entries == 0
    }

    /// How many places are the first or differ from the place before.
    pub fn runs(&self) -> u64
        ensures runs { HasRuns self.now.entries result }
        ensures only { (n : ℕ) → HasRuns self.now.entries n → n ≡ result }
    {
        let ended = self.ended.len() as u64;
        match self.last {
            Some(_) => ended + 1,
            None => ended,
        }
    }

    /// The runs in order.
    pub fn as_runs(&self) -> Runs<'_>
        ensures entries { entries_of result ≡ self.now.entries }
        ensures runs { HasRuns self.now.entries (length result) }
        ensures counted { length self.now.entries < 2 ^ 64 }
    {
        let count = self.entries - self.before;
        let last = self.last.map(|event| Run { event, count });
        Runs::new(self.ended.as_slice(), last)
    }
}
