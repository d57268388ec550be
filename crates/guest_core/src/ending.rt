//! The end of a guest.
ghost use Rattle.std.specs.Prelude.{◌≡◌, ◌≢◌, ◌≤◌, [], None};
ghost use Rattle.guest_core.specs.GuestView.{guest_of, IsSameGuest, AreOf, shared_by};
ghost use Rattle.guest_core.specs.Kept.{IsKept};
ghost use Rattle.guest_core.specs.Making.{MakesAlone};
ghost use Rattle.guest_core.specs.MoveCalls.{finishing, NoneIsDone, EndsByPlan};
ghost use Rattle.guest_core.specs.Records.{IsRecord};

use crate::laws::laws;
use crate::parts::Parts;
use crate::releasing::close;
use crate::{GuestRecord, Resources};
use base_words::{End, Ppn, Sequence};
use frame_words::Holder;
use isolation_law::run_grows;
use shootdown::GuestSeat;
use wire_queue::PassList;

impl Parts {
    /// Finishes each move for which nobody waits, in order of the pages.
    fn finish_all(&mut self, resources: &Resources)
        requires kept { IsKept self.old }
        requires shared { AreOf (shared_by resources.now) (guest_of self.old) }
        requires not_ended { (guest_of self.old).state.end ≡ None }
        ensures kept { IsKept self.new }
        ensures makes { MakesAlone (guest_of self.old) (finishing 0 (guest_of self.old).state.pages) (guest_of self.new) }
        ensures none { NoneIsDone (guest_of self.new).state }
        ensures devices { (guest_of self.new).state.devices ≡ (guest_of self.old).state.devices }
        ensures hand { (guest_of self.new).state.hand ≡ (guest_of self.old).state.hand }
        ensures handed { (guest_of self.new).handed ≡ (guest_of self.old).handed }
        ensures not_ended { (guest_of self.new).state.end ≡ None }
        ensures notes { self.new.seat ≡ self.old.seat }
        ensures same { IsSameGuest (guest_of self.old) (guest_of self.new) }
        ensures room { (guest_of self.old).room ≤ (guest_of self.new).room }
    {
        run_grows();
        if !self.course.pmap.is_moving() {
            return;
        }
        for number in 0..self.course.pmap.len() {
            self.finish_ready(Ppn(number), resources);
        }
    }

    /// Ends a guest that hasn't ended, since the plan is done, once each move is finished for which nobody waits; pages that are being taken
    /// shared still are let go before.
    pub(crate) fn end_budget(&mut self, resources: &Resources)
        requires kept { IsKept self.old }
        requires shared { AreOf (shared_by resources.now) (guest_of self.old) }
        requires room { 2 ≤ (guest_of self.old).room }
        requires not_ended { (guest_of self.old).state.end ≡ None }
        ensures kept { IsKept self.new }
        ensures ends { EndsByPlan (guest_of self.old) (guest_of self.new) }
        ensures notes { self.new.seat ≡ self.old.seat }
        ensures passes { (guest_of self.new).passes ≡ (guest_of self.old).passes }
        ensures same { IsSameGuest (guest_of self.old) (guest_of self.new) }
    {
        laws();
        run_grows();
        self.finish_all(resources);
        close(
            &mut self.course,
            &mut self.holder,
            &mut self.uses,
            resources.table,
            &mut self.journal,
            End::Budget,
        );
    }

    /// What a guest that has ended leaves: its record, its holder with nothing, its ends of the wires, and its seat with its notes.
    pub(crate) fn into_record(self) -> (GuestRecord, Holder, PassList, GuestSeat)
        requires kept { IsKept self }
        requires ended { (guest_of self).state.end ≢ None }
        ensures left { IsRecord self.start (guest_of self).state result.0 }
        ensures journal { result.0.journal.entries ≡ self.journal.entries }
        ensures table { result.1.table ≡ self.holder.table }
        ensures given_back { result.1.view.holds ≡ [] }
        ensures passes { result.2 ≡ self.wiring.passes }
        ensures seat { result.3 ≡ self.seat }
    {
        let Parts {
            number: _,
            disk: _,
            start: _,
            course,
            holder,
            uses: _,
            journal,
            seat,
            wiring,
        } = self;
        let end = course.ended.unwrap();
        let (console, sent) = course.devs.into_lists();
        let record = GuestRecord {
            journal,
            console,
            sent,
            cells: Sequence::from_vec(course.sent_from),
            received: Sequence::from_vec(course.received),
            discarded: Sequence::from_vec(course.discarded),
            in_hand: course.hand,
            skips: Sequence::from_vec(course.skips),
            end,
        };
        (record, holder, wiring.passes, seat)
    }
}
