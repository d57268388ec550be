//! Moves of pages are acknowledged and finished.
ghost use Rattle.std.specs.Prelude.{◌≡◌, ◌<◌, ◌≤◌, ◌+◌, [], ◌∷◌, None, length};
ghost use Rattle.base_words.specs.declared.events.Event.TheVariants.{Ack, Finish};
ghost use Rattle.page_moves.specs.Ending.{Awaits, IsReady};
ghost use Rattle.isolation_law.specs.GuestState.{processor as processor_at};
ghost use Rattle.isolation_law.specs.Phases.{MayAct};
ghost use Rattle.guest_core.specs.GuestView.{guest_of, IsSameGuest, AreOf, shared_by};
ghost use Rattle.guest_core.specs.Kept.{IsKept};
ghost use Rattle.guest_core.specs.Making.{MakesAlone};
ghost use Rattle.guest_core.specs.MoveCalls.{FinishesReady, StillActs};

use crate::frames::{count_untied, give_back};
use crate::laws::laws;
use crate::parts::Parts;
use crate::{Ready, Resources};
use base_words::{Event, Ppn, ProcId};
use isolation_law::{exchanges, uses_change};

impl Parts {
    /// A processor drops what its TLB has of a page whose move waits for it, by which it acknowledges the move.
    #[cold]
    #[inline(never)]
    pub(crate) fn acknowledge(&mut self, processor: ProcId, page: Ppn)
        requires kept { IsKept self.old }
        requires room { 2 ≤ (guest_of self.old).room }
        requires not_ended { (guest_of self.old).state.end ≡ None }
        requires processor { processor.0 < length (guest_of self.old).state.processors }
        requires page { page.0 < length (guest_of self.old).state.pages }
        requires awaits { Awaits self.old.course.pmap page.0 processor.0 }
        requires acts { MayAct (guest_of self.old).state processor.0 }
        ensures kept { IsKept self.new }
        ensures makes { MakesAlone (guest_of self.old) (Ack processor page ∷ []) (guest_of self.new) }
        ensures notes { self.new.seat ≡ self.old.seat }
        ensures handed { (guest_of self.new).handed ≡ (guest_of self.old).handed }
        ensures same { IsSameGuest (guest_of self.old) (guest_of self.new) }
        ensures room { (guest_of self.old).room ≤ (guest_of self.new).room + 2 }
    {
        exchanges();
        uses_change();
        laws();
        self.course.acknowledge(processor, page);
        self.journal.push(Event::Ack(processor, page));
    }

    /// Ends the move of a page for which nobody waits any more, and gives back the frames that it frees. It needs no room.
    #[cold]
    #[inline(never)]
    pub(crate) fn finish(&mut self, page: Ppn, resources: &Resources)
        requires kept { IsKept self.old }
        requires shared { AreOf (shared_by resources.now) (guest_of self.old) }
        requires not_ended { (guest_of self.old).state.end ≡ None }
        requires page { page.0 < length (guest_of self.old).state.pages }
        requires ready { IsReady self.old.course.pmap page.0 }
        ensures kept { IsKept self.new }
        ensures makes { MakesAlone (guest_of self.old) (Finish page ∷ []) (guest_of self.new) }
        ensures notes { self.new.seat ≡ self.old.seat }
        ensures acts { StillActs (guest_of self.old) (guest_of self.new) }
        ensures hand { (guest_of self.new).state.hand ≡ (guest_of self.old).state.hand }
        ensures handed { (guest_of self.new).handed ≡ (guest_of self.old).handed }
        ensures same { IsSameGuest (guest_of self.old) (guest_of self.new) }
        ensures room { (guest_of self.old).room ≤ (guest_of self.new).room }
    {
        exchanges();
        uses_change();
        laws();
        let untied = self.course.pmap.untied(page);
        let freed = self.course.finish_move(page);
        give_back(&self.course, &mut self.holder, resources.table, freed);
        count_untied(&self.course, &mut self.uses, untied);
        self.journal.push(Event::Finish(page));
    }

    /// Ends the move of a page where nobody waits for it any more. It takes no memory and needs no room.
    pub(crate) fn finish_ready(&mut self, page: Ppn, resources: &Resources) -> Ready
        requires kept { IsKept self.old }
        requires shared { AreOf (shared_by resources.now) (guest_of self.old) }
        ensures kept { IsKept self.new }
        ensures finishes { FinishesReady (guest_of self.old) page (guest_of self.new) result }
        ensures notes { self.new.seat ≡ self.old.seat }
        ensures acts { StillActs (guest_of self.old) (guest_of self.new) }
        ensures hand { (guest_of self.new).state.hand ≡ (guest_of self.old).state.hand }
        ensures handed { (guest_of self.new).handed ≡ (guest_of self.old).handed }
        ensures same { IsSameGuest (guest_of self.old) (guest_of self.new) }
        ensures room { (guest_of self.old).room ≤ (guest_of self.new).room }
    {
        if page.0 >= self.course.pmap.len() {
            return Ready::NoMove;
        }
        let Some(open) = self.course.pmap.open_move(page) else {
            return Ready::NoMove;
        };
        if !open.waiting.is_empty() {
            return Ready::Waits(open.waiting);
        }
        self.finish(page, resources);
        Ready::Finished
    }
}
