//! The counters of all pages of a guest.
ghost use Rattle.std.specs.Prelude.{◌≡◌, ◌↔◌, ℕ, ◌<◌, true, IsTrue, length, slice_set, replicate, IfOk};
ghost use Rattle.private_machine.specs.Policy.{no_misses, missed, noted, anew, choice};
ghost use Rattle.page_policy.specs.Pages.{misses_of, AreCounters};
ghost use Rattle.page_policy.specs.Choices.{kind_of, IsTo};

use crate::Choice;
use crate::rows::{choose, clear, row};
use base_words::{NodeId, Policy, Ppn};
use std::alloc::{AllocError, Global};
use std::marker::Model;

/// For each page of a guest, how often each node missed it, and whether it was written, since its counters last started anew.
#[derive(Debug, Drop)]
pub struct Counters {
    nodes: u8,
    written: Vec<bool>,
    misses: Vec<u64>,
}

impl Model for Counters {
    ghost use Rattle.std.specs.Prelude.{◌≡◌, ◌*◌, List, length};
    ghost use Rattle.private_machine.specs.Policy.{Misses};
    ghost use Rattle.page_policy.specs.Pages.{by_page};

    ghost Value = { List Misses };

    ghost view = { λ c. by_page c.nodes c.written.items c.misses.items };

    ghost invariant = { λ c. length c.misses.items ≡ c.nodes * length c.written.items };
}

impl Counters {
    /// No misses, of so many pages by so many nodes, and no page is written.
    pub fn new(alloc: Global, pages: u32, nodes: u8) -> Result<Counters, AllocError>
        ensures none { IfOk result (λ counters. counters ≡ replicate pages (no_misses nodes)) }
        ensures counters { IfOk result (AreCounters pages nodes) }
    {
        let written = vec![in alloc; false; pages as usize]?;
        let misses = vec![in alloc; 0u64; pages as usize * nodes as usize]?;
        Ok(Counters {
            nodes,
            written,
            misses,
        })
    }

    /// Whether a page is one of those that are counted.
    #[inline]
    pub fn has(&self, page: Ppn) -> bool
        ensures { IsTrue result ↔ (page.0 < length self.now) }
    {
        (page.0 as usize) < self.written.len()
    }

    /// Whether a page was written since its counters last started anew.
    #[inline]
    pub fn is_written(&self, page: Ppn) -> bool
        requires { page.0 < length self.now }
        ensures { result ≡ (misses_of page.0 self.now).written }
    {
        self.written[page.0 as usize]
    }

    /// An access of a page by a node: whether it was a miss, and whether it was a store.
    #[inline]
    pub fn note(&mut self, page: Ppn, node: NodeId, miss: bool, store: bool)
        requires page { page.0 < length self.old }
        requires node { node.0 < length (misses_of page.0 self.old).by_node }
        ensures noted { self.new
            ≡ slice_set self.old page.0 (noted miss store node.0 (misses_of page.0 self.old)) }
        ensures counters { (pages nodes : ℕ) → AreCounters pages nodes self.old → AreCounters pages nodes self.new }
    {
        if miss {
            self.note_miss(page, node);
        }
        if store {
            self.note_store(page);
        }
    }

    /// One miss more of a page by a node.
    fn note_miss(&mut self, page: Ppn, node: NodeId)
        requires page { page.0 < length self.old }
        requires node { node.0 < length (misses_of page.0 self.old).by_node }
        ensures { self.new
            ≡ slice_set self.old page.0 (missed node.0 (misses_of page.0 self.old)) }
    {
        let place = page.0 as usize * self.nodes as usize + node.0 as usize;
        self.misses[place] = self.misses[place].saturating_add(1);
    }

    /// A page was written.
    #[inline]
    fn note_store(&mut self, page: Ppn)
        requires { page.0 < length self.old }
        ensures { self.new
            ≡ slice_set self.old page.0 (record (misses_of page.0 self.old) { written = true }) }
    {
        self.written[page.0 as usize] = true;
    }

    /// What the policy chooses for a page after a miss of a node.
    pub fn decide(&self, page: Ppn, node: NodeId, policy: &Policy) -> Choice
        requires page { page.0 < length self.now }
        requires node { node.0 < length (misses_of page.0 self.now).by_node }
        ensures kind { kind_of result ≡ choice policy.now node.0 (misses_of page.0 self.now) }
        ensures node { IsTo node result }
    {
        let nodes = self.nodes as usize;
        let counts = row(&self.misses, page.0 as usize * nodes, nodes);
        choose(policy, counts, self.written[page.0 as usize], node)
    }

    /// The counters and the mark of a page start anew.
    pub fn restart(&mut self, page: Ppn)
        requires { page.0 < length self.old }
        ensures anew { self.new ≡ slice_set self.old page.0 (anew (misses_of page.0 self.old)) }
        ensures counters { (pages nodes : ℕ) → AreCounters pages nodes self.old → AreCounters pages nodes self.new }
    {
        let nodes = self.nodes as usize;
        clear(&mut self.misses, page.0 as usize * nodes, nodes);
        self.written[page.0 as usize] = false;
    }
}
