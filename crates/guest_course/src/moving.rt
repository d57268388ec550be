//! Moves of pages: how they begin, are acknowledged and end.
ghost use Rattle.std.specs.Prelude.{◌≡◌, ◌<◌, ◌≤◌, ◌+◌, Some, None, length, map};
ghost use Rattle.base_words.specs.declared.moves.By.{By};
ghost use Rattle.base_words.specs.declared.moves.MoveKind.TheVariants.{TakeShared};
ghost use Rattle.private_machine.specs.Backing.{Move, TakesShared, page_at};
ghost use Rattle.pmap_table.specs.Frames.{shared_copy_of};
ghost use Rattle.private_machine.specs.PageMove.{kind_of, dropped};
ghost use Rattle.private_machine.specs.SecondLevel.{seconds_without_page};
ghost use Rattle.pmap_table.specs.OpenMoves.{change_of, FitsChange};
ghost use Rattle.pmap_table.specs.Ending.{numbers_of};
ghost use Rattle.page_moves.specs.Ending.{Awaits, IsReady};
ghost use Rattle.isolation_law.specs.LoadRows.{Acks};
ghost use Rattle.isolation_law.specs.MoveRows.{Asks, Begins, Finishes, with_begun};
ghost use Rattle.isolation_law.specs.Phases.{GoesOn, MayAct};
ghost use Rattle.guest_course.specs.CourseView.{purpose, purpose_of, surroundings, state_of};
ghost use Rattle.guest_course.specs.CourseRules.{AllStand, IsSound};
ghost use Rattle.guest_course.specs.MoveCalls.{HasPage, MayBegin, MayTake, home_wish, wish_of};
ghost use Rattle.guest_course.specs.Packets.{SamePackets};
ghost use Rattle.guest_course.specs.Rebacking.{Rebacked};

use crate::course::Course;
use crate::operation::Operation;
use base_words::{NodeId, Ppn, ProcId, SharedFrame};
use isolation_law::row_keeps;
use page_moves::finish;
use pmap_table::{Change, Freed};

impl Course {
    /// A processor drops what its TLB has of a page whose move waits for it, by which it acknowledges the move.
    pub fn acknowledge(&mut self, processor: ProcId, page: Ppn)
        requires sound { IsSound self.old }
        requires goes_on { GoesOn (state_of self.old) }
        requires may_act { MayAct (state_of self.old) processor.0 }
        requires processor { processor.0 < length self.old.places.items }
        requires page { page.0 < length self.old.pmap.pages }
        requires awaits { Awaits self.old.pmap page.0 processor.0 }
        ensures sound { IsSound self.new }
        ensures acks { Acks (state_of self.old) processor.0 page.0 (state_of self.new) }
        ensures goes_on { GoesOn (state_of self.new) }
        ensures print_room { self.new.devs.print_room ≡ self.old.devs.print_room }
        ensures send_room { self.new.devs.send_room ≡ self.old.devs.send_room }
        ensures room { self.new.pmap.room ≡ self.old.pmap.room }
        ensures cells { self.new.sent_from ≡ self.old.sent_from }
        ensures skips { self.new.skips ≡ self.old.skips }
        ensures packets { SamePackets self.old self.new }
    {
        row_keeps();
        self.places[processor.0 as usize].tlb.drop_page(page);
        self.pmap.unmap(page, processor);
    }

    /// Ends a move of a page that all processors have acknowledged, and tells the frames to release.
    pub fn finish_move(&mut self, page: Ppn) -> Freed
        requires sound { IsSound self.old }
        requires goes_on { GoesOn (state_of self.old) }
        requires page { page.0 < length self.old.pmap.pages }
        requires ready { IsReady self.old.pmap page.0 }
        ensures sound { IsSound self.new }
        ensures finishes { Finishes (state_of self.old) page.0 (state_of self.new) }
        ensures freed { (m : Move) → (page_at self.old.pmap.pages page.0).move ≡ Some m → result ≡ numbers_of (dropped (page_at self.old.pmap.pages page.0) m.change) }
        ensures goes_on { GoesOn (state_of self.new) }
        ensures print_room { self.new.devs.print_room ≡ self.old.devs.print_room }
        ensures send_room { self.new.devs.send_room ≡ self.old.devs.send_room }
        ensures room { self.old.pmap.room ≤ self.new.pmap.room }
        ensures cells { self.new.sent_from ≡ self.old.sent_from }
        ensures skips { self.new.skips ≡ self.old.skips }
        ensures packets { SamePackets self.old self.new }
    {
        row_keeps();
        let freed = finish(&mut self.pmap, page);
        self.operations[page.0 as usize] = None;
        self.clear_dues(page);
        freed
    }
}

impl Course {
    /// No second-level TLB has an entry of a page any more.
    fn drop_seconds(&mut self, page: Ppn)
        ensures same { self.new ≡ record self.old { seconds = self.new.seconds } }
        ensures dropped { self.new.seconds.items ≡ map (seconds_without_page page.0) self.old.seconds.items }
    {
        for second in self.seconds.iter_mut() {
            second.drop_page(page);
        }
    }

    /// A move of a page begins, for which room was made. Its second-level entries go, its counters and its mark start anew, and
    /// nothing is due of it.
    pub(crate) fn open(&mut self, page: Ppn, change: Change, operation: Option<Operation>)
        requires has { HasPage self.old page.0 }
        requires rests { (page_at self.old.pmap.pages page.0).move ≡ None }
        requires fits { FitsChange (page_at self.old.pmap.pages page.0) (change_of change) }
        requires room { 0 < self.old.pmap.room }
        requires operations { length self.old.operations.items ≡ length self.old.pmap.pages }
        requires stands { AllStand (surroundings self.old.around) 0 self.old.places.items }
        ensures opened { state_of self.new ≡ with_begun (state_of self.old) page.0 (change_of change) (purpose_of operation) (state_of self.old).spares }
        ensures rebacked { Rebacked self.old self.new }
        ensures skips { self.new.skips ≡ self.old.skips }
        ensures room { self.new.pmap.room + 1 ≡ self.old.pmap.room }
        ensures packets { SamePackets self.old self.new }
    {
        self.pmap.begin(page, change);
        self.operations[page.0 as usize] = operation;
        self.drop_seconds(page);
        self.counters.restart(page);
        self.clear_dues(page);
    }

    /// Begins a move of a page without one to a node, for which somebody asks.
    pub fn begin(&mut self, page: Ppn, change: Change, node: NodeId)
        requires sound { IsSound self.old }
        requires may { MayBegin (state_of self.old) page.0 (change_of change) node.0 }
        requires asked { (by : By) × Asks (state_of self.old) by (wish_of page.0 (change_of change) node.0) None }
        requires fits { FitsChange (page_at self.old.pmap.pages page.0) (change_of change) }
        requires room { 0 < self.old.pmap.room }
        ensures sound { IsSound self.new }
        ensures begins { (by : By) → Asks (state_of self.old) by (wish_of page.0 (change_of change) node.0) None → Begins (state_of self.old) page.0 (kind_of (change_of change)) node.0 by (state_of self.new) }
        ensures opened { state_of self.new ≡ with_begun (state_of self.old) page.0 (change_of change) None (state_of self.old).spares }
        ensures goes_on { GoesOn (state_of self.new) }
        ensures print_room { self.new.devs.print_room ≡ self.old.devs.print_room }
        ensures send_room { self.new.devs.send_room ≡ self.old.devs.send_room }
        ensures room { self.new.pmap.room + 1 ≡ self.old.pmap.room }
        ensures cells { self.new.sent_from ≡ self.old.sent_from }
        ensures skips { self.new.skips ≡ self.old.skips }
        ensures packets { SamePackets self.old self.new }
    {
        row_keeps();
        self.open(page, change, None);
    }

    /// Begins to take a page without a move shared, for an operation: this frame, which others may hold too, has the bytes that come into
    /// the page.
    pub(crate) fn begin_taking(&mut self, page: Ppn, target: SharedFrame, operation: Operation)
        requires sound { IsSound self.old }
        requires may { MayTake (state_of self.old) page.0 (shared_copy_of target) (purpose operation) }
        requires asked { (by : By) × Asks (state_of self.old) by (home_wish (state_of self.old) page.0 TakeShared) (Some (purpose operation)) }
        requires room { 0 < self.old.pmap.room }
        ensures sound { IsSound self.new }
        ensures begins { (by : By) → Asks (state_of self.old) by (home_wish (state_of self.old) page.0 TakeShared) (Some (purpose operation)) → Begins (state_of self.old) page.0 TakeShared (state_of self.old).around.home by (state_of self.new) }
        ensures opened { state_of self.new ≡ with_begun (state_of self.old) page.0 (TakesShared (shared_copy_of target)) (Some (purpose operation)) (state_of self.old).spares }
        ensures goes_on { GoesOn (state_of self.new) }
        ensures print_room { self.new.devs.print_room ≡ self.old.devs.print_room }
        ensures send_room { self.new.devs.send_room ≡ self.old.devs.send_room }
        ensures room { self.new.pmap.room + 1 ≡ self.old.pmap.room }
        ensures cells { self.new.sent_from ≡ self.old.sent_from }
        ensures skips { self.new.skips ≡ self.old.skips }
        ensures packets { SamePackets self.old self.new }
    {
        row_keeps();
        self.open(page, Change::TakeShared(target), Some(operation));
    }
}
