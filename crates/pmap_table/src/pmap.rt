//! The table of a guest's pages.
ghost use Rattle.std.specs.Prelude.{◌≡◌, ℕ, Bool, true, false, ◌<◌, ◌≤◌, ◌↔◌, [], IsTrue, IfOk, IfSome, IfNone, OnOk, OnErr, length, map, count_by, option_map};
ghost use Rattle.std.specs.List.{list_any};
ghost use Rattle.base_words.specs.Limits.{most_processors};
ghost use Rattle.base_words.specs.declared.ids.Ppn.{Ppn};
ghost use Rattle.base_words.specs.Membership.{Has, IsMember};
ghost use Rattle.private_machine.specs.Backing.{Copy, page_at, copies, has_frame, lies_on, nearest as nearest_of};
ghost use Rattle.pmap_table.specs.NearFrame.{lost_on, IsAsNear};
ghost use Rattle.pmap_table.specs.OpenMoves.{told};
ghost use Rattle.pmap_table.specs.BackedPages.{own_page};
ghost use Rattle.pmap_table.specs.PageMap.{is_moving};
ghost use Rattle.pmap_table.specs.Tracking.{waits_for, is_ready, IsLowest, HoldsNowhere};

use crate::OpenMove;
use crate::backed::BackedPage;
use crate::open_pages::OpenPages;
use base_words::{CellSet, Frame, FrameList, FrameNo, NodeId, Ppn, ProcId, ProcSet, Shape};
use std::alloc::{AllocError, Global};
use std::marker::Model;

/// A guest's pages and its spare frames.
#[derive(Drop)]
pub struct Pmap {
    pub(crate) pages: Vec<BackedPage>,
    pub(crate) spares: Vec<Frame>,
    /// How many pages have an open move.
    pub(crate) moving: u32,
    /// How many more spares can come with no memory, beside one from each open move.
    pub(crate) room: u32,
    /// Which pages wait for which processor, and whose moves are ready to be finished.
    pub(crate) open: OpenPages,
}

impl Model for Pmap {
    ghost use Rattle.pmap_table.specs.PageMap.{PageMap};

    ghost Value = { PageMap };

    ghost use Rattle.pmap_table.specs.PageMap.{map_of, IsSound};

    ghost view = { map_of };

    ghost invariant = { IsSound };
}

impl Pmap {
    /// A page for each of these frames, in order, and no spares.
    pub fn boot(alloc: Global, frames: FrameList) -> Result<Pmap, AllocError>
        requires { length frames ≤ 2048 }
        ensures pages { IfOk result (λ pmap. pmap.pages ≡ map own_page frames) }
        ensures spares { IfOk result (λ pmap. pmap.spares ≡ []) }
    {
        Ok(Pmap {
            pages: own_pages(alloc, frames)?,
            spares: Vec::new(alloc),
            moving: 0,
            room: 0,
            open: OpenPages::none(alloc)?,
        })
    }

    /// Makes room for one more spare, beside those that the ends of open moves will bring. Pages and spares stay.
    #[inline]
    pub fn reserve(&mut self) -> Result<(), AllocError>
        ensures pages { self.new.pages ≡ self.old.pages }
        ensures spares { self.new.spares ≡ self.old.spares }
        ensures room { OnOk result (0 < self.new.room) }
        ensures kept { self.old.room ≤ self.new.room }
        ensures err { OnErr result (self.new ≡ self.old) }
    {
        if self.room == 0 {
            self.make_room()?;
        }
        Ok(())
    }

    /// Makes room for one more spare where there is none.
    #[cold]
    #[inline(never)]
    fn make_room(&mut self) -> Result<(), AllocError>
        requires { self.old.room ≡ 0 }
        ensures pages { self.new.pages ≡ self.old.pages }
        ensures spares { self.new.spares ≡ self.old.spares }
        ensures room { OnOk result (0 < self.new.room) }
        ensures err { OnErr result (self.new ≡ self.old) }
    {
        if self.spares.len() as u32 + self.moving == u32::MAX {
            return Err(AllocError);
        }
        self.spares.reserve(self.moving as usize + 1)?;
        self.room = 1;
        Ok(())
    }

    /// A page and what backs it.
    #[inline]
    pub(crate) fn at(&self, page: Ppn) -> &BackedPage
        requires { page.0 < length self.now.pages }
        ensures { result.now ≡ page_at self.now.pages page.0 }
    {
        &self.pages[page.0 as usize]
    }

    /// How many pages there are.
    pub fn len(&self) -> u32
        ensures { result ≡ length self.now.pages }
    {
        self.pages.len() as u32
    }

    /// Whether there are no pages.
    pub fn is_empty(&self) -> bool
        ensures { IsTrue result ↔ (self.now.pages ≡ []) }
    {
        self.pages.is_empty()
    }

    /// How many spare frames there are.
    pub fn spares(&self) -> u32
        ensures { result ≡ length self.now.spares }
    {
        self.spares.len() as u32
    }

    /// The number of a page's master.
    #[inline]
    pub fn master(&self, page: Ppn) -> FrameNo
        requires { page.0 < length self.now.pages }
        ensures { result.0 ≡ (page_at self.now.pages page.0).master.frame }
    {
        self.at(page).master.number()
    }

    /// The generation under which a page's master is held.
    pub fn generation(&self, page: Ppn) -> u32
        requires { page.0 < length self.now.pages }
        ensures { result ≡ (page_at self.now.pages page.0).master.generation }
    {
        self.at(page).master.generation()
    }

    /// The frame by which a node reaches a page whose master lies in no cell that has failed: of the master and of the replicas that
    /// don't either, the one whose node's number differs least from the node's, on the lower node among equals.
    pub fn nearest(&self, page: Ppn, node: NodeId, shape: &Shape, dead: CellSet) -> FrameNo
        requires { page.0 < length self.now.pages }
        ensures frame { result.0 ≡ nearest_of shape.now.frames (lost_on shape.now dead) node.0 (page_at self.now.pages page.0) }
        ensures backed { has_frame (copies (page_at self.now.pages page.0)) result.0 ≡ true }
        ensures lives { lost_on shape.now dead (page_at self.now.pages page.0).master.frame ≡ false → lost_on shape.now dead result.0 ≡ false }
        ensures least { (c : Copy) → Has (copies (page_at self.now.pages page.0)) c → lost_on shape.now dead c.frame ≡ false → IsAsNear shape.now.frames node.0 result.0 c.frame }
    {
        self.at(page).nearest(node, shape, dead)
    }

    /// Whether a page has a frame on a node: its master, or a replica.
    pub fn is_on(&self, page: Ppn, node: NodeId, shape: &Shape) -> bool
        requires { page.0 < length self.now.pages }
        ensures { result ≡ list_any (lies_on shape.now.frames node.0) (copies (page_at self.now.pages page.0)) }
    {
        self.at(page).is_on(node, shape.frames)
    }

    /// Whether others may hold a page's master too.
    pub fn is_shared(&self, page: Ppn) -> bool
        requires { page.0 < length self.now.pages }
        ensures { result ≡ (page_at self.now.pages page.0).shared }
    {
        self.at(page).master.is_shared()
    }

    /// How many replicas a page has.
    pub fn replicas(&self, page: Ppn) -> u32
        requires { page.0 < length self.now.pages }
        ensures { result ≡ length (page_at self.now.pages page.0).replicas }
    {
        self.at(page).replicas.len()
    }

    /// The processors whose TLBs may name a page.
    pub fn mapped(&self, page: Ppn) -> ProcSet
        requires { page.0 < length self.now.pages }
        ensures { result ≡ (page_at self.now.pages page.0).mapped }
    {
        self.at(page).mapped
    }

    /// Whether a processor's TLB may name a page.
    pub fn is_mapped(&self, page: Ppn, processor: ProcId) -> bool
        requires page { page.0 < length self.now.pages }
        requires processor { processor.0 < most_processors }
        ensures { IsTrue result ↔ IsMember (page_at self.now.pages page.0).mapped processor.0 }
    {
        self.at(page).mapped.has(processor)
    }

    /// The open move of a page.
    pub fn open_move(&self, page: Ppn) -> Option<OpenMove>
        requires { page.0 < length self.now.pages }
        ensures { result ≡ option_map told (page_at self.now.pages page.0).move }
    {
        self.at(page).open_move()
    }
}

impl Pmap {
    /// Whether any page has an open move.
    #[inline]
    pub fn is_moving(&self) -> bool
        ensures none { result ≡ false → HoldsNowhere is_moving self.now.pages }
    {
        self.moving != 0
    }

    /// How many pages have an open move.
    pub fn open_moves(&self) -> usize
        ensures { result ≡ count_by is_moving self.now.pages }
    {
        self.moving as usize
    }

    /// The lowest page that waits for a processor to acknowledge its move.
    pub fn first_waiting(&self, processor: ProcId) -> Option<Ppn>
        requires { processor.0 < most_processors }
        ensures some { IfSome result (λ (q : Ppn). IsLowest (waits_for processor.0) self.now.pages q.0) }
        ensures none { IfNone result (HoldsNowhere (waits_for processor.0) self.now.pages) }
    {
        self.open.first_waiting(processor)
    }

    /// The lowest page whose move all have acknowledged and no operation ends.
    pub fn first_ready(&self) -> Option<Ppn>
        ensures some { IfSome result (λ (q : Ppn). IsLowest is_ready self.now.pages q.0) }
        ensures none { IfNone result (HoldsNowhere is_ready self.now.pages) }
    {
        self.open.first_ready()
    }
}

/// A page for each of these frames, in order.
fn own_pages(alloc: Global, frames: FrameList) -> Result<Vec<BackedPage>, AllocError>
    ensures { IfOk result (λ pages. pages.items ≡ map own_page frames) }
{
    frames
        .into_vec()
        .into_iter()
        .map(|frame| BackedPage::owning(frame))
        .collect(alloc)
}
