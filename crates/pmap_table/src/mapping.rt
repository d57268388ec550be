//! Which processors' TLBs may name the pages of a guest.
ghost use Rattle.std.specs.Prelude.{◌≡◌, ◌<◌, IsTrue, ◌↔◌, length, map};
ghost use Rattle.base_words.specs.Limits.{most_processors};
ghost use Rattle.base_words.specs.Membership.{IsMember};
ghost use Rattle.private_machine.specs.Backing.{page_at};
ghost use Rattle.private_machine.specs.PageMove.{named_by, left_by};
ghost use Rattle.pmap_table.specs.PageMap.{with_page};

use crate::Pmap;
use base_words::{Ppn, ProcId, ProcSet};

impl Pmap {
    /// A processor's TLB may name a page from now on.
    pub fn map(&mut self, page: Ppn, processor: ProcId)
        requires page { page.0 < length self.old.pages }
        requires processor { processor.0 < most_processors }
        ensures { self.new ≡ with_page self.old page.0 (named_by processor.0 (page_at self.old.pages page.0)) }
    {
        self.pages[page.0 as usize].map(processor);
    }

    /// A processor's TLB no longer names a page, by which the processor has acknowledged the page's open move.
    pub fn unmap(&mut self, page: Ppn, processor: ProcId)
        requires page { page.0 < length self.old.pages }
        requires processor { processor.0 < most_processors }
        ensures { self.new ≡ with_page self.old page.0 (left_by processor.0 (page_at self.old.pages page.0)) }
    {
        let backed = &mut self.pages[page.0 as usize];
        backed.unmap(processor);
        if backed.pending.is_some() {
            self.open.track(page, &backed.pending);
        }
    }

    /// A processor's TLB no longer names any page, by which the processor has acknowledged all open moves.
    pub fn leave(&mut self, processor: ProcId)
        requires { processor.0 < most_processors }
        ensures { self.new ≡ record self.old { pages = map (left_by processor.0) self.old.pages } }
    {
        for page in 0..self.len() {
            self.unmap(Ppn(page), processor);
        }
    }
}
