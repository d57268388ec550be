//! A move of a page is asked for, by the plan or the policy.
ghost use Rattle.std.specs.Prelude.{◌≡◌, ◌<◌, ◌≤◌, ◌++◌, ℕ, None, Ok, Some, OnOk, length, map};
ghost use Rattle.isolation_law.specs.Causes.{first_cause, IsCause};
ghost use Rattle.isolation_law.specs.GuestState.{due_on, page as page_of};
ghost use Rattle.isolation_law.specs.Phases.{MayAct};
ghost use Rattle.isolation_law.specs.Surroundings.{home_cell};
ghost use Rattle.shootdown.specs.Notes.{sided};
ghost use Rattle.guest_course.specs.CourseView.{due_of};
ghost use Rattle.guest_course.specs.SkipView.{wanting, cause_of};
ghost use Rattle.guest_core.specs.GuestView.{guest_of, AreOf, shared_by};
ghost use Rattle.guest_core.specs.Kept.{IsKept};
ghost use Rattle.guest_core.specs.GuestCalls.{Leaves, MayCall, processor_of};
ghost use Rattle.guest_core.specs.AskCalls.{IsAsked};
ghost use Rattle.guest_core.specs.MoveCalls.{AsksBy, MayAsk, NotesSkip, told_by};
ghost use Rattle.guest_core.specs.declared.answers.Asked.TheVariants.{Skipped};

use crate::causes::cause_of_wish;
use crate::frames::change_for;
use crate::laws::laws;
use crate::parts::Parts;
use crate::{Asked, Resources};
use base_words::{By, Event, MoveKind, NodeId, Ppn, ProcId};
use guest_course::{SkipCause, SkipEntry, Wish};
use isolation_law::{dues_fit, exchanges, frames_spread, pages_stay, uses_change};
use node_frames::FindFault;
use shootdown::{GuestSeat, Note, ProcToken, note};
use std::alloc::{AllocError, Global};

/// Notes a move that was asked for and not refused, where the plan asked for it.
fn note_ask(token: &mut ProcToken, seat: &mut GuestSeat, by: By, wish: Wish)
    requires { seat.old.board ≡ token.old.board }
    ensures token { token.new ≡ record token.old { notes = token.old.notes ++ map (sided seat.old.number) (told_by by (wanting wish) (Ok Skipped)) } }
    ensures seat { seat.new ≡ record seat.old { notes = seat.old.notes ++ map (sided token.old.number) (told_by by (wanting wish) (Ok Skipped)) } }
{
    if let By::Plan(_) = by {
        note(token, seat, Note::Asked(wish.page, wish.kind, wish.node));
    }
}

impl Parts {
    /// The policy's choice that is due on a processor, which may be asked for.
    #[inline]
    pub(crate) fn due(&self, processor: ProcId) -> Option<Wish>
        requires kept { IsKept self.now }
        requires processor { processor.0 < length (guest_of self.now).start.around.processors }
        ensures due { due_of result ≡ due_on (guest_of self.now).state processor.0 }
        ensures may { (wish : Wish) → result ≡ Some wish → MayAsk (guest_of self.now) (wanting wish) }
    {
        dues_fit();
        pages_stay();
        self.course.due[processor.0 as usize]
    }

    /// Who asks for a move through a processor: the policy, where just that is due there, and else the plan.
    fn asker(&self, processor: ProcId, wish: Wish) -> By
        requires kept { IsKept self.now }
        requires processor { processor.0 < length (guest_of self.now).start.around.processors }
        ensures { AsksBy (guest_of self.now).state processor (wanting wish) result }
    {
        if self.course.due[processor.0 as usize] == Some(wish) {
            By::Due(processor)
        } else {
            By::Plan(processor)
        }
    }

    /// A move that was asked for isn't begun: that is put down with its cause, and noted where the plan asked.
    fn skip(&mut self, token: &mut ProcToken, by: By, wish: Wish, cause: SkipCause) -> Asked
        requires kept { IsKept self.old }
        requires may { MayCall (guest_of self.old) token.old }
        requires room { 2 ≤ (guest_of self.old).room }
        requires asked { AsksBy (guest_of self.old).state (processor_of token.old) (wanting wish) by }
        requires may_ask { MayAsk (guest_of self.old) (wanting wish) }
        requires caused { IsCause (guest_of self.old).state token.old.number (wanting wish) (cause_of cause) }
        ensures kept { IsKept self.new }
        ensures skips { NotesSkip (guest_of self.old) by (wanting wish) (cause_of cause) (guest_of self.new) }
        ensures answer { result ≡ Skipped }
        ensures leaves { Leaves (guest_of self.old) token.old (told_by by (wanting wish) (Ok result)) (guest_of self.new) token.new }
        ensures acts { due_on (guest_of self.old).state token.old.number ≡ Some (wanting wish) → MayAct (guest_of self.new).state token.old.number }
    {
        dues_fit();
        exchanges();
        uses_change();
        laws();
        pages_stay();
        let place = self.course.skips.len() as u64;
        self.course.skip(SkipEntry { wish, by, cause });
        self.journal.push(Event::Skip(place));
        note_ask(token, &mut self.seat, by, wish);
        Asked::Skipped
    }

    /// Begins a move that no cause keeps from being begun, unless no frame is found for it.
    fn begin(
        &mut self,
        alloc: Global,
        token: &mut ProcToken,
        by: By,
        wish: Wish,
        resources: &Resources,
    ) -> Result<Asked, AllocError>
        requires kept { IsKept self.old }
        requires may { MayCall (guest_of self.old) token.old }
        requires room { 2 ≤ (guest_of self.old).room }
        requires shared { AreOf (shared_by resources.now) (guest_of self.old) }
        requires not_ended { (guest_of self.old).state.end ≡ None }
        requires asked { AsksBy (guest_of self.old).state (processor_of token.old) (wanting wish) by }
        requires may_ask { MayAsk (guest_of self.old) (wanting wish) }
        requires page { wish.page.0 < length (guest_of self.old).state.pages }
        requires rests { (page_of (guest_of self.old).state wish.page.0).move ≡ None }
        requires no_cause { first_cause (guest_of self.old).state token.old.number (wanting wish) ≡ None }
        ensures kept { IsKept self.new }
        ensures asks { IsAsked resources.now.table.now.terms.lends (home_cell (guest_of self.old).start.around) (guest_of self.old) token.old (wanting wish) (guest_of self.new) token.new result }
    {
        dues_fit();
        exchanges();
        uses_change();
        frames_spread();
        laws();
        let taken = change_for(
            alloc,
            &self.course,
            &mut self.holder,
            &mut self.uses,
            resources.table,
            wish,
        );
        let change = match taken {
            Ok(change) => change,
            Err(FindFault::NoFrame(shown)) => {
                return Ok(self.skip(token, by, wish, SkipCause::NoFrame(shown)));
            }
            Err(FindFault::Memory) => return Err(AllocError),
        };
        let Wish { page, kind, node } = wish;
        self.course.begin(page, change, node);
        self.journal.push(Event::Begin {
            page,
            kind,
            node,
            by,
        });
        note_ask(token, &mut self.seat, by, wish);
        Ok(Asked::Begun)
    }

    /// A move of a page is asked for through the token's processor: by the policy, where just that is due there, and else by the plan. `Busy`
    /// exactly where the guest hasn't ended and the page has a move; else `Skipped` with the first cause that holds, of which the want of a
    /// frame on the node comes last; else it begins. Want of memory comes only where a frame is sought, and then nothing has changed.
    pub(crate) fn ask_move(
        &mut self,
        alloc: Global,
        token: &mut ProcToken,
        page: Ppn,
        kind: MoveKind,
        node: NodeId,
        resources: &Resources,
    ) -> Result<Asked, AllocError>
        requires kept { IsKept self.old }
        requires may { MayCall (guest_of self.old) token.old }
        requires room { 2 ≤ (guest_of self.old).room }
        requires shared { AreOf (shared_by resources.now) (guest_of self.old) }
        requires may_ask { MayAsk (guest_of self.old) (record { page = page.0; kind = kind; node = node.0 }) }
        ensures kept { IsKept self.new }
        ensures asks { IsAsked resources.now.table.now.terms.lends (home_cell (guest_of self.old).start.around) (guest_of self.old) token.old (record { page = page.0; kind = kind; node = node.0 }) (guest_of self.new) token.new result }
    {
        pages_stay();
        let wish = Wish { page, kind, node };
        let by = self.asker(token.number(), wish);
        if self.course.ended.is_some() {
            return Ok(self.skip(token, by, wish, SkipCause::Ended));
        }
        if let Some(open) = self.course.pmap.open_move(page) {
            return Ok(Asked::Busy(open.waiting));
        }
        if let Some(cause) = cause_of_wish(&self.course, token.number(), wish) {
            return Ok(self.skip(token, by, wish, cause));
        }
        self.begin(alloc, token, by, wish, resources)
    }
}
