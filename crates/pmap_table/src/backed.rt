//! A page and what backs it.
ghost use Rattle.std.specs.Prelude.{◌≡◌, ◌<◌, ◌≤◌, ◌%◌, true, false, length, option_map};
ghost use Rattle.std.specs.List.{list_any};
ghost use Rattle.base_words.specs.Limits.{most_processors};
ghost use Rattle.base_words.specs.Memory.{word_at};
ghost use Rattle.private_machine.specs.Backing.{copies, has_frame, lies_on, bytes_through, stored_through, with_first};
ghost use Rattle.private_machine.specs.PageMove.{named_by, left_by};
ghost use Rattle.pmap_table.specs.OpenMoves.{told};
ghost use Rattle.pmap_table.specs.BackedPages.{own_page};
ghost use Rattle.pmap_table.specs.NearFrame.{lost_on, near_frame};

use crate::OpenMove;
use crate::master::Master;
use crate::open_move::PendingMove;
use crate::replicas::Replicas;
use base_words::{CellSet, Frame, FrameNo, NodeId, Page, ProcId, ProcSet, Shape};
use std::marker::Model;

/// A page: its master, the processors whose TLBs may name it, its open move and its replicas.
#[derive(Drop)]
pub(crate) struct BackedPage {
    pub(crate) master: Master,
    pub(crate) mapped: ProcSet,
    pub(crate) pending: Option<PendingMove>,
    pub(crate) replicas: Replicas,
}

impl Model for BackedPage {
    ghost use Rattle.private_machine.specs.Backing.{Page};

    ghost Value = { Page };

    ghost use Rattle.pmap_table.specs.BackedPages.{page_of};
    ghost use Rattle.pmap_table.specs.OpenMoves.{FitsMove};

    ghost view = { page_of };

    ghost invariant = { λ g. FitsMove (page_of g) (page_of g).move };
}

impl BackedPage {
    /// A page that a frame of the guest's own backs.
    pub(crate) fn owning(frame: Frame) -> Self
        ensures { result ≡ own_page frame }
    {
        BackedPage {
            master: Master::Own(frame),
            mapped: ProcSet::empty(),
            pending: None,
            replicas: Replicas::none(),
        }
    }

    /// The word at an offset on one of the frames of the page.
    #[inline]
    pub(crate) fn word_on(&self, frame: FrameNo, offset: u32) -> u32
        requires backed { has_frame (copies self.now) frame.0 ≡ true }
        requires within { offset < 4096 }
        requires aligned { offset % 4 ≡ 0 }
        ensures { result ≡ word_at (bytes_through self.now frame.0) offset }
    {
        if self.master.number().0 == frame.0 {
            self.master.page().word_at(offset)
        } else {
            self.replicas.page_on(frame).word_at(offset)
        }
    }

    /// The bytes of one of the frames of the page.
    #[inline]
    pub(crate) fn page_on(&self, frame: FrameNo) -> &Page
        requires backed { has_frame (copies self.now) frame.0 ≡ true }
        ensures { result.now ≡ bytes_through self.now frame.0 }
    {
        if self.master.number().0 == frame.0 {
            self.master.page()
        } else {
            self.replicas.page_on(frame)
        }
    }

    /// Whether the master or a replica lies on a node, where each node has so many frames.
    pub(crate) fn is_on(&self, node: NodeId, frames: u32) -> bool
        requires { 0 < frames }
        ensures { result ≡ list_any (lies_on frames node.0) (copies self.now) }
    {
        self.master.number().0 / frames == u32::from(node.0) || self.replicas.is_on(frames, node)
    }

    /// The frame by which a node reaches the page.
    pub(crate) fn nearest(&self, node: NodeId, shape: &Shape, dead: CellSet) -> FrameNo
        ensures { result.0 ≡ near_frame shape.now.frames (lost_on shape.now dead) node.0 self.now.master.frame self.now.replicas }
    {
        self.replicas
            .nearest(self.master.number(), node, shape, dead)
    }

    /// Replaces the word at an offset of the master.
    #[inline]
    pub(crate) fn set_word(&mut self, offset: u32, word: u32)
        requires own { self.old.shared ≡ false }
        requires within { offset < 4096 }
        requires aligned { offset % 4 ≡ 0 }
        ensures { self.new ≡ stored_through self.old self.old.master.frame offset word }
    {
        self.master.set_word(offset, word);
    }

    /// Replaces the first bytes of the master.
    pub(crate) fn fill(&mut self, bytes: &[u8])
        requires own { self.old.shared ≡ false }
        requires fits { length bytes.now ≤ 4096 }
        ensures { self.new ≡ with_first bytes.now self.old }
    {
        self.master.fill(bytes);
    }

    /// A processor's TLB may name the page from now on.
    pub(crate) fn map(&mut self, processor: ProcId)
        requires { processor.0 < most_processors }
        ensures { self.new ≡ named_by processor.0 self.old }
    {
        self.mapped = self.mapped.with(processor);
    }

    /// A processor's TLB no longer names the page, by which the processor has acknowledged its open move.
    pub(crate) fn unmap(&mut self, processor: ProcId)
        requires { processor.0 < most_processors }
        ensures { self.new ≡ left_by processor.0 self.old }
    {
        self.mapped = self.mapped.without(processor);
        if let Some(pending) = &mut self.pending {
            pending.waiting = pending.waiting.without(processor);
        }
    }

    /// The open move of the page.
    pub(crate) fn open_move(&self) -> Option<OpenMove>
        ensures { result ≡ option_map told self.now.move }
    {
        match &self.pending {
            Some(pending) => Some(pending.told()),
            None => None,
        }
    }
}
