//! What keeps the bytes of a page from being changed.
ghost use Rattle.std.specs.Prelude.{◌≡◌, ◌≢◌, ◌⊎◌, ℕ, ◌<◌, true, [], IfSome, Some, None, length, option_map};
ghost use Rattle.base_words.specs.declared.ids.Ppn.{Ppn};
ghost use Rattle.private_machine.specs.Backing.{page_at};
ghost use Rattle.isolation_law.specs.Phases.{GoesOn};
ghost use Rattle.guest_course.specs.CourseView.{state_of};
ghost use Rattle.guest_course.specs.CourseRules.{IsSound};
ghost use Rattle.guest_course.specs.EmulateCalls.{LeavesAct};
ghost use Rattle.guest_course.specs.Hurdles.{NeedsMove, Keeps, ActKeeps, PacketKeeps};
ghost use Rattle.guest_course.specs.Acting.{act_of, page_used};

use crate::course::Course;
use crate::task::DONE;
use base_words::{MoveKind, Ppn, VcpuId};
use guest_devs::DevAct;

/// Whether the bytes of a page may change.
#[derive(Clone, Copy, Debug, PartialEq, Eq)]
pub enum Hurdle {
    /// They may.
    Free,
    /// This page has a move that isn't over.
    Waits(Ppn),
    /// This page needs this move first.
    Needs(Ppn, MoveKind),
}

impl Course {
    /// The move that a page without one needs before its bytes change, where they may not.
    pub(crate) fn need(&self, page: Ppn) -> MoveKind
        requires page { page.0 < length self.now.pmap.pages }
        requires rests { (page_at self.now.pmap.pages page.0).move ≡ None }
        requires kept { ((page_at self.now.pmap.pages page.0).shared ≡ true) ⊎ ((page_at self.now.pmap.pages page.0).replicas ≢ []) }
        ensures { NeedsMove (state_of self.now) page.0 result }
    {
        if self.pmap.is_shared(page) {
            MoveKind::Break
        } else {
            MoveKind::Collapse
        }
    }

    /// Whether the bytes of a page may change.
    pub fn hurdle(&self, page: Ppn) -> Hurdle
        requires { page.0 < length self.now.pmap.pages }
        ensures { Keeps (state_of self.now) page.0 result }
    {
        if self.pmap.open_move(page).is_some() {
            Hurdle::Waits(page)
        } else if self.pmap.is_shared(page) || self.pmap.replicas(page) != 0 {
            Hurdle::Needs(page, self.need(page))
        } else {
            Hurdle::Free
        }
    }

    /// The page to which or from which an act goes that was left, if there is one.
    pub fn act_page(&self, vcpu: VcpuId, act: DevAct) -> Option<Ppn>
        requires { vcpu.0 < length self.now.devs.state.page.transfers }
        ensures page { option_map (λ (page : Ppn). page.0) result ≡ page_used (act_of (state_of self.now) vcpu.0 act) }
        ensures there { IfSome result (λ (page : Ppn). page.0 < length self.now.pmap.pages) }
    {
        let transfer = self.devs.transfer(vcpu);
        match act {
            DevAct::DiskRead | DevAct::DiskWrite => {
                if self.status_of(&transfer) == DONE {
                    Some(Ppn(transfer.page))
                } else {
                    None
                }
            }
            DevAct::Send(_) => {
                if self.may_send(vcpu) {
                    Some(Ppn(transfer.send_page))
                } else {
                    None
                }
            }
            DevAct::Done => None,
        }
    }

    /// What is in the way of an act that was left: its page has a move, or the bytes of a page into which a block comes may not change.
    pub fn act_hurdle(&self, vcpu: VcpuId, act: DevAct) -> Hurdle
        requires sound { IsSound self.now }
        requires left { (p : ℕ) × LeavesAct (state_of self.now) p vcpu.0 act (state_of self.now) }
        ensures keeps { ActKeeps (state_of self.now) vcpu.0 act result }
    {
        let Some(page) = self.act_page(vcpu, act) else {
            return Hurdle::Free;
        };
        if self.pmap.open_move(page).is_some() {
            return Hurdle::Waits(page);
        }
        match act {
            DevAct::DiskRead => self.hurdle(page),
            DevAct::Done | DevAct::DiskWrite | DevAct::Send(_) => Hurdle::Free,
        }
    }

    /// What keeps a packet from coming into the page that is armed, if one is.
    pub fn packet_hurdle(&self) -> Hurdle
        requires sound { IsSound self.now }
        requires goes_on { GoesOn (state_of self.now) }
        ensures keeps { PacketKeeps (state_of self.now) result }
    {
        match self.armed() {
            Some(page) => self.hurdle(page),
            None => Hurdle::Free,
        }
    }
}
