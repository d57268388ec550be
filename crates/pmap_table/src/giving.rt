//! A guest gives up all that it holds, one frame a call.
ghost use Rattle.std.specs.Prelude.{◌≡◌, ◌+◌, ◌==◌, ◌↔◌, if◌then◌else◌, ℕ, [], ◌∷◌, None, IfSome, IfNone};
ghost use Rattle.base_words.specs.declared.ids.FrameNo.{FrameNo};
ghost use Rattle.private_machine.specs.PageMove.{held_for};
ghost use Rattle.pmap_table.specs.GivingUp.{held, times, LosesLast, Loses};

use crate::Pmap;
use crate::backed::BackedPage;
use base_words::{FrameNo, Ppn};

impl BackedPage {
    /// Ends the open move, and drops its target.
    fn drop_move(&mut self) -> Option<FrameNo>
        ensures page { self.new ≡ record self.old { move = None } }
        ensures target { Loses result (held_for self.old) (held_for self.new) }
    {
        self.pending.take()?.change.target()
    }

    /// Drops the last replica.
    fn drop_replica(&mut self) -> Option<FrameNo>
        ensures page { self.new ≡ record self.old { replicas = self.new.replicas } }
        ensures replica { Loses result self.old.replicas self.new.replicas }
        ensures none { IfNone result (self.old.replicas ≡ []) }
    {
        Some(self.replicas.pop()?.number)
    }

    /// Drops a frame other than the master, and ends the open move.
    fn give_up(&mut self) -> Option<FrameNo>
        ensures master { self.new.master ≡ self.old.master }
        ensures still { self.new.move ≡ None }
        ensures frame { Loses result (held_for self.old) (held_for self.new) }
        ensures alone { IfNone result (self.new.replicas ≡ []) }
    {
        match self.drop_move() {
            Some(target) => Some(target),
            None => self.drop_replica(),
        }
    }

    /// Drops the master with all else.
    fn drop_master(self) -> FrameNo
        ensures { result.0 ≡ self.master.frame }
    {
        self.master.number()
    }
}

impl Pmap {
    /// Drops one frame that the guest holds, and tells its number: the last spare, else of the last page the target of its open
    /// move, a replica, or the master, with which the page goes. None exactly where the guest holds no frame.
    pub fn give_up(&mut self) -> Option<FrameNo>
        ensures none { (result ≡ None) ↔ (held self.old ≡ []) }
        ensures same { IfNone result (self.new ≡ self.old) }
        ensures last { IfSome result (λ (f : FrameNo). LosesLast f.0 (held self.old) (held self.new)) }
        ensures counted { IfSome result (λ (f : FrameNo). (k : ℕ)
            → times k (held self.old) ≡ times k (held self.new) + (if f.0 == k then 1 else 0)) }
        ensures room { self.new.room ≡ self.old.room }
    {
        match self.spares.pop() {
            Some(spare) => Some(spare.number),
            None => self.give_up_page(),
        }
    }

    /// Drops one frame of the last page.
    fn give_up_page(&mut self) -> Option<FrameNo>
        requires { self.old.spares ≡ [] }
        ensures none { IfNone result (self.old.pages ≡ []) }
        ensures frame { Loses result (held self.old) (held self.new) }
        ensures same { IfNone result (self.new ≡ self.old) }
        ensures room { self.new.room ≡ self.old.room }
    {
        let last = self.pages.len().checked_sub(1)?;
        let page = &mut self.pages[last];
        self.moving -= u32::from(page.pending.is_some());
        self.open.track(Ppn(last as u32), &None);
        if let Some(number) = page.give_up() {
            return Some(number);
        }
        Some(self.pages.pop()?.drop_master())
    }
}
