//! Counters that are kept as frames are taken and given back, and virtual processors loaded and unloaded.
ghost use Rattle.std.specs.Prelude.{◌≡◌, ◌≢◌, ◌<◌, ◌≤◌, ◌-◌, ◌^◌, ◌↔◌, IfOk, IsTrue, length};
ghost use Rattle.base_words.specs.Limits.{most_cells};
ghost use Rattle.base_words.specs.Membership.{IsMember};
ghost use Rattle.cell_depend.specs.Counters.{count_at, total, unused, with_dead, with_frame, with_vcpu, without_frame, without_frames, without_vcpu};

use base_words::{CellId, CellSet};
use std::alloc::{AllocError, Global};
use std::marker::Model;

/// How many frames of a guest lie on the nodes of a cell, and how many processors of the cell have a loaded virtual
/// processor of it.
#[derive(Clone, Copy, Debug, PartialEq, Eq)]
pub struct CellCount {
    pub frames: u64,
    pub vcpus: u64,
}

/// How much a guest uses each cell, and which cells have failed.
#[derive(Debug, Drop)]
pub struct Uses {
    counts: Vec<CellCount>,
    dead: CellSet,
}

impl Model for Uses {
    ghost use Rattle.std.specs.Prelude.{◌≤◌, length};
    ghost use Rattle.base_words.specs.Limits.{most_cells};
    ghost use Rattle.cell_depend.specs.Counters.{UsesState};

    ghost Value = { UsesState };

    ghost view = { λ s. record { counts = s.counts.items; dead = s.dead } };

    ghost invariant = { λ s. length s.counts.items ≤ most_cells };
}

impl Uses {
    /// Counters for so many cells, of which none is used and none has failed.
    pub fn new(alloc: Global, cells: u8) -> Result<Self, AllocError>
        requires { cells ≤ most_cells }
        ensures { IfOk result (λ uses. uses ≡ unused cells) }
    {
        let none = CellCount {
            frames: 0,
            vcpus: 0,
        };
        Ok(Uses {
            counts: vec![in alloc; none; cells as usize]?,
            dead: CellSet::empty(),
        })
    }

    /// A frame on a node of a cell was taken.
    pub fn add_frame(&mut self, cell: CellId)
        requires within { cell.0 < length self.old.counts }
        requires room { (count_at self.old cell.0).frames < 2 ^ 64 - 1 }
        ensures { self.new ≡ with_frame self.old cell.0 }
    {
        self.counts[cell.0 as usize].frames += 1;
    }

    /// A frame on a node of a cell was given back.
    pub fn drop_frame(&mut self, cell: CellId)
        requires within { cell.0 < length self.old.counts }
        requires some { 0 < (count_at self.old cell.0).frames }
        ensures { self.new ≡ without_frame self.old cell.0 }
    {
        self.counts[cell.0 as usize].frames -= 1;
    }

    /// All frames were given back.
    pub fn drop_frames(&mut self)
        ensures { self.new ≡ without_frames self.old }
    {
        for count in self.counts.iter_mut() {
            count.frames = 0;
        }
    }

    /// A virtual processor was loaded on a processor of a cell.
    pub fn add_vcpu(&mut self, cell: CellId)
        requires within { cell.0 < length self.old.counts }
        requires room { (count_at self.old cell.0).vcpus < 2 ^ 64 - 1 }
        ensures { self.new ≡ with_vcpu self.old cell.0 }
    {
        self.counts[cell.0 as usize].vcpus += 1;
    }

    /// A virtual processor was unloaded from a processor of a cell.
    pub fn drop_vcpu(&mut self, cell: CellId)
        requires within { cell.0 < length self.old.counts }
        requires some { 0 < (count_at self.old cell.0).vcpus }
        ensures { self.new ≡ without_vcpu self.old cell.0 }
    {
        self.counts[cell.0 as usize].vcpus -= 1;
    }

    /// Whether the guest uses a cell.
    #[inline]
    pub fn uses(&self, cell: CellId) -> bool
        requires { cell.0 < length self.now.counts }
        ensures { IsTrue result ↔ (total (count_at self.now cell.0) ≢ 0) }
    {
        let count = self.counts[cell.0 as usize];
        count.frames > 0 || count.vcpus > 0
    }

    /// A cell has failed.
    pub fn mark_dead(&mut self, cell: CellId)
        requires { cell.0 < length self.old.counts }
        ensures exactly { self.new ≡ with_dead self.old cell.0 }
        ensures marked { IsMember self.new.dead cell.0 }
    {
        self.dead = self.dead.with(cell);
    }

    /// The cells that have failed.
    #[inline]
    pub fn dead(&self) -> CellSet
        ensures { result ≡ self.now.dead }
    {
        self.dead
    }
}
