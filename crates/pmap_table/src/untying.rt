//! The frames that tie a guest to cells no longer once a move has ended.
ghost use Rattle.std.specs.Prelude.{◌≡◌, ◌<◌, Some, length, option_map};
ghost use Rattle.std.specs.Option.{option_to_list};
ghost use Rattle.base_words.specs.declared.ids.FrameNo.{FrameNo};
ghost use Rattle.private_machine.specs.Backing.{Move, page_at};
ghost use Rattle.private_machine.specs.PageMove.{untied as untied_of, untied_taken};
ghost use Rattle.pmap_table.specs.Ending.{numbers_of};

use crate::backed::BackedPage;
use crate::{Change, Pmap};
use base_words::{FrameNo, Ppn};

impl BackedPage {
    /// The master where another frame takes its place with the end of the open move, or a target that becomes a replica or is given up.
    fn untied(&self) -> Option<FrameNo>
        ensures { (m : Move) → self.now.move ≡ Some m → option_to_list (option_map (λ (n : FrameNo). n.0) result) ≡ numbers_of (untied_of self.now m.change) }
    {
        match &self.pending {
            Some(pending) => match &pending.change {
                Change::Migrate(_) | Change::Break(_) => Some(self.master.number()),
                Change::Replicate(target) => Some(target.number),
                Change::TakeShared(target) => Some(target.number),
                Change::Collapse | Change::GiveShared(_) => None,
            },
            None => None,
        }
    }

    /// The master, unless it is own, and so becomes a spare.
    fn untied_by_taking(&self) -> Option<FrameNo>
        ensures { option_to_list (option_map (λ (n : FrameNo). n.0) result) ≡ numbers_of (untied_taken self.now) }
    {
        if self.master.is_shared() {
            Some(self.master.number())
        } else {
            None
        }
    }
}

impl Pmap {
    /// The frame of a page that ties the guest to a cell no longer once the page's open move has ended, if there is one.
    pub fn untied(&self, page: Ppn) -> Option<FrameNo>
        requires { page.0 < length self.now.pages }
        ensures { (m : Move) → (page_at self.now.pages page.0).move ≡ Some m → option_to_list (option_map (λ (n : FrameNo). n.0) result) ≡ numbers_of (untied_of (page_at self.now.pages page.0) m.change) }
    {
        self.at(page).untied()
    }

    /// The one that does so no longer once the operation has ended the page's move for which the page is taken shared, if there is one.
    pub fn untied_by_taking(&self, page: Ppn) -> Option<FrameNo>
        requires { page.0 < length self.now.pages }
        ensures { option_to_list (option_map (λ (n : FrameNo). n.0) result) ≡ numbers_of (untied_taken (page_at self.now.pages page.0)) }
    {
        self.at(page).untied_by_taking()
    }
}
