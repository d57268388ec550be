//! Cells that fail.
ghost use Rattle.std.specs.Prelude.{◌≡◌, ◌≤◌, ◌<◌, None, true, false};
ghost use Rattle.base_words.specs.Limits.{most_cells};
ghost use Rattle.isolation_law.specs.CellUse.{uses};
ghost use Rattle.isolation_law.specs.GuestState.{is_dead};
ghost use Rattle.guest_core.specs.declared.answers.Fate.TheVariants.{Ends, Stays, WasDead, WasEnded};
ghost use Rattle.guest_core.specs.FailCalls.{EndsByCell, FailedBefore, FailsCell, told_of_failure};
ghost use Rattle.guest_core.specs.GuestCalls.{Leaves, MayCall};
ghost use Rattle.guest_core.specs.GuestView.{guest_of, shared_by, AreOf};
ghost use Rattle.guest_core.specs.Kept.{IsKept};

use crate::laws::laws;
use crate::parts::Parts;
use crate::releasing::close;
use crate::{Fate, Resources};
use base_words::{CellId, End, Event};
use guest_course::used_cells_end;
use isolation_law::{exchanges, run_grows, uses_change};
use shootdown::{Note, ProcToken, note};

impl Parts {
    /// The cell had failed for the guest already.
    fn failed_before(&mut self, token: &mut ProcToken, cell: CellId)
        requires kept { IsKept self.old }
        requires may { MayCall (guest_of self.old) token.old }
        requires dead { is_dead (guest_of self.old).state cell.0 ≡ true }
        ensures kept { IsKept self.new }
        ensures fails { FailsCell (guest_of self.old) cell (guest_of self.new) WasDead }
        ensures leaves { Leaves (guest_of self.old) token.old (told_of_failure cell (guest_of self.old).state.end WasDead) (guest_of self.new) token.new }
    {
        laws();
        let end = End::CellFailed(cell);
        if self.course.ended == Some(end) {
            note(token, &mut self.seat, Note::Ended(end));
        } else {
            note(token, &mut self.seat, Note::Dead(cell));
        }
    }

    /// The guest uses the cell, and ends by its failure.
    fn end_by_cell(&mut self, token: &mut ProcToken, cell: CellId, resources: &Resources)
        requires kept { IsKept self.old }
        requires may { MayCall (guest_of self.old) token.old }
        requires room { 2 ≤ (guest_of self.old).room }
        requires shared { AreOf (shared_by resources.now) (guest_of self.old) }
        requires cell { cell.0 < most_cells }
        requires not_ended { (guest_of self.old).state.end ≡ None }
        requires lives { is_dead (guest_of self.old).state cell.0 ≡ false }
        requires used { uses (guest_of self.old).state cell.0 ≡ true }
        ensures kept { IsKept self.new }
        ensures fails { FailsCell (guest_of self.old) cell (guest_of self.new) Ends }
        ensures leaves { Leaves (guest_of self.old) token.old (told_of_failure cell (guest_of self.old).state.end Ends) (guest_of self.new) token.new }
    {
        laws();
        run_grows();
        used_cells_end();
        let entry = Event::CellFails(cell);
        let end = End::CellFailed(cell);
        self.journal.push(entry);
        close(
            &mut self.course,
            &mut self.holder,
            &mut self.uses,
            resources.table,
            &mut self.journal,
            end,
        );
        self.course.fail(cell);
        note(token, &mut self.seat, Note::Made(entry));
        note(token, &mut self.seat, Note::Ended(end));
    }

    /// The guest goes on without the cell.
    fn outlive(&mut self, token: &mut ProcToken, cell: CellId)
        requires kept { IsKept self.old }
        requires may { MayCall (guest_of self.old) token.old }
        requires room { 2 ≤ (guest_of self.old).room }
        requires cell { cell.0 < most_cells }
        requires not_ended { (guest_of self.old).state.end ≡ None }
        requires lives { is_dead (guest_of self.old).state cell.0 ≡ false }
        requires unused { uses (guest_of self.old).state cell.0 ≡ false }
        ensures kept { IsKept self.new }
        ensures fails { FailsCell (guest_of self.old) cell (guest_of self.new) Stays }
        ensures leaves { Leaves (guest_of self.old) token.old (told_of_failure cell (guest_of self.old).state.end Stays) (guest_of self.new) token.new }
    {
        exchanges();
        uses_change();
        laws();
        let entry = Event::CellFails(cell);
        self.course.fail(cell);
        self.journal.push(entry);
        note(token, &mut self.seat, Note::Made(entry));
        note(token, &mut self.seat, Note::Dead(cell));
    }

    /// The guest has ended before.
    fn fail_after(&mut self, token: &mut ProcToken, cell: CellId, end: End)
        requires kept { IsKept self.old }
        requires may { MayCall (guest_of self.old) token.old }
        requires room { 2 ≤ (guest_of self.old).room }
        requires cell { cell.0 < most_cells }
        requires ended { (guest_of self.old).state.end ≡ Some end }
        requires lives { is_dead (guest_of self.old).state cell.0 ≡ false }
        ensures kept { IsKept self.new }
        ensures fails { FailsCell (guest_of self.old) cell (guest_of self.new) WasEnded }
        ensures leaves { Leaves (guest_of self.old) token.old (told_of_failure cell (guest_of self.old).state.end WasEnded) (guest_of self.new) token.new }
    {
        exchanges();
        uses_change();
        laws();
        let entry = Event::CellFails(cell);
        self.course.fail(cell);
        self.journal.push(entry);
        note(token, &mut self.seat, Note::Made(entry));
        note(token, &mut self.seat, Note::Ended(end));
    }

    /// A cell fails. `WasDead` exactly where it had failed for the guest already, which is as it was; else `WasEnded` exactly where the guest
    /// has ended; else `Ends` exactly where the guest uses the cell: it ends by it, and gives all its frames back; else `Stays`: it goes on.
    pub(crate) fn cell_fails(
        &mut self,
        token: &mut ProcToken,
        cell: CellId,
        resources: &Resources,
    ) -> Fate
        requires kept { IsKept self.old }
        requires may { MayCall (guest_of self.old) token.old }
        requires room { 2 ≤ (guest_of self.old).room }
        requires shared { AreOf (shared_by resources.now) (guest_of self.old) }
        requires cell { cell.0 < most_cells }
        ensures kept { IsKept self.new }
        ensures fails { FailsCell (guest_of self.old) cell (guest_of self.new) result }
        ensures leaves { Leaves (guest_of self.old) token.old (told_of_failure cell (guest_of self.old).state.end result) (guest_of self.new) token.new }
    {
        if self.course.is_dead(cell) {
            self.failed_before(token, cell);
            return Fate::WasDead;
        }
        if let Some(end) = self.course.ended {
            self.fail_after(token, cell, end);
            return Fate::WasEnded;
        }
        if self.uses(cell) {
            self.end_by_cell(token, cell, resources);
            return Fate::Ends;
        }
        self.outlive(token, cell);
        Fate::Stays
    }
}
