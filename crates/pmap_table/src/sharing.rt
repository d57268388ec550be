//! Frames that others may hold too.
ghost use Rattle.std.specs.Prelude.{◌≡◌, ◌<◌, true, length, IfOk};
ghost use Rattle.private_machine.specs.Backing.{page_at};
ghost use Rattle.pmap_table.specs.Frames.{copy_of, shared_copy_of};

use crate::Pmap;
use crate::backed::BackedPage;
use base_words::{Frame, Page, Ppn, SharedFrame};
use std::alloc::{AllocError, Global};
use std::sync::Arc;

/// The same frame, with another owner of its page.
pub fn another_owner(frame: &SharedFrame) -> Result<SharedFrame, AllocError>
    ensures { IfOk result (λ other. shared_copy_of other ≡ shared_copy_of frame.now) }
{
    Ok(SharedFrame {
        number: frame.number,
        generation: frame.generation,
        page: Arc::try_clone(&frame.page)?,
    })
}

/// A frame whose page nobody writes any more, with a copy of the page that may have several owners.
pub(crate) fn sharing(alloc: Global, frame: &Frame) -> Result<SharedFrame, AllocError>
    ensures { IfOk result (λ shared. shared_copy_of shared ≡ copy_of frame.now) }
{
    let mut page = Page::zeroed(alloc)?;
    page.copy_from(&frame.page);
    Ok(SharedFrame {
        number: frame.number,
        generation: frame.generation,
        page: Arc::new(alloc, page)?,
    })
}

impl BackedPage {
    /// The master of a page that others may hold too, with another owner of its bytes.
    fn shared_frame(&mut self, alloc: Global) -> Result<SharedFrame, AllocError>
        requires { self.old.shared ≡ true }
        ensures frame { IfOk result (λ frame. shared_copy_of frame ≡ self.old.master) }
        ensures same { self.new ≡ self.old }
    {
        self.master.shared_frame(alloc)
    }
}

impl Pmap {
    /// The master of a page that others may hold too, with another owner of its bytes. Where it lies still in the box in which it was the
    /// guest's own, its bytes are copied, once. Want of memory changes nothing that a contract sees.
    pub fn shared_frame(&mut self, alloc: Global, page: Ppn) -> Result<SharedFrame, AllocError>
        requires page { page.0 < length self.old.pages }
        requires shared { (page_at self.old.pages page.0).shared ≡ true }
        ensures frame { IfOk result (λ frame. shared_copy_of frame ≡ (page_at self.old.pages page.0).master) }
        ensures same { self.new ≡ self.old }
    {
        self.pages[page.0 as usize].shared_frame(alloc)
    }
}
