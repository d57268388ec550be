//! A guest gives its frames back, and ends.
ghost use Rattle.std.specs.Prelude.{◌≡◌, ◌<◌, ◌≤◌, ◌+◌, [], ◌∷◌, ◌++◌, Some, length, slice_index_or};
ghost use Rattle.base_words.specs.declared.events.Event.TheVariants.{End as Ending};
ghost use Rattle.frame_words.specs.Holders.{IsMade};
ghost use Rattle.pmap_table.specs.GivingUp.{held};
ghost use Rattle.isolation_law.specs.EndRows.{MayEnd, ended};
ghost use Rattle.guest_course.specs.CourseView.{state_of};
ghost use Rattle.guest_course.specs.CourseRules.{IsSound};
ghost use Rattle.guest_course.specs.EndCalls.{EndsSo, letting_go};
ghost use Rattle.guest_course.specs.Packets.{SamePackets};
ghost use Rattle.guest_core.specs.GuestView.{entries_due, open_count};
ghost use Rattle.guest_core.specs.Holding.{IsHolding, HoldsCopies, HasFrames, FitsAround};
ghost use Rattle.guest_core.specs.Using.{AreUses};

use base_words::{CellId, End, Event, Ppn};
use cell_depend::{Uses, all_frames_given_back};
use event_journal::Journal;
use frame_words::{FrameTable, Holder, no_frame_and_no_loan_is_no_hold};
use guest_course::{Around, Course};
use node_frames::release;
use page_moves::is_taking;

/// The cell of the guest's home node.
pub(crate) fn home_cell(around: &Around) -> CellId
    requires { around.now.home.0 < around.now.site.shape.nodes }
    ensures { result ≡ slice_index_or around.now.site.shape.cells around.now.home.0 (record { 0 = 0 }) }
{
    around.site.shape.cells.as_slice()[around.home.0 as usize]
}

/// Gives all frames back, with their loans.
fn release_all(course: &mut Course, holder: &mut Holder, table: &FrameTable)
    requires made { IsMade table.now holder.old }
    requires fits { FitsAround table.now (state_of course.old).around }
    requires at_home { course.old.around.home.0 < course.old.around.site.shape.nodes }
    requires holding { HoldsCopies (state_of course.old).around (held course.old.pmap) holder.old.view }
    ensures pages { course.new.pmap.pages ≡ [] }
    ensures spares { course.new.pmap.spares ≡ [] }
    ensures rest { course.new ≡ record course.old { pmap = course.new.pmap } }
    ensures given_back { holder.new.view.holds ≡ [] }
    ensures begins { course.new.pmap.room ≡ course.old.pmap.room }
    ensures same { holder.new.table ≡ holder.old.table }
{
    no_frame_and_no_loan_is_no_hold();
    let home = home_cell(&course.around);
    while let Some(frame) = course.pmap.give_up() {
        release(table, holder, &course.around.site.shape, home, frame);
    }
}

/// Puts down each page that is being taken shared: it is let go directly before an end.
fn let_go(course: &Course, journal: &mut Journal)
    requires room { length (letting_go 0 course.now.pmap.pages) ≤ journal.old.room }
    ensures entries { journal.new.entries ≡ journal.old.entries ++ letting_go 0 course.now.pmap.pages }
    ensures room { journal.old.room ≤ journal.new.room + length (letting_go 0 course.now.pmap.pages) }
{
    for number in 0..course.pmap.len() {
        let page = Ppn(number);
        if is_taking(&course.pmap, page) {
            journal.push(Event::Finish(page));
        }
    }
}

/// Ends a guest, which gives all frames back, once the pages are let go that are being taken shared. What is loaded stays, and is counted on.
pub(crate) fn close(
    course: &mut Course,
    holder: &mut Holder,
    uses: &mut Uses,
    table: &FrameTable,
    journal: &mut Journal,
    end: End,
)
    requires sound { IsSound course.old }
    requires made { IsMade table.now holder.old }
    requires fits { FitsAround table.now (state_of course.old).around }
    requires at_home { (state_of course.old).around.home < length (state_of course.old).around.nodes }
    requires holding { IsHolding (state_of course.old) holder.old.view }
    requires used { AreUses (state_of course.old) uses.old }
    requires room { length (letting_go 0 course.old.pmap.pages) < journal.old.room }
    ensures sound { IsSound course.new }
    ensures state { state_of course.new ≡ ended end (state_of course.old) }
    ensures ends { MayEnd (state_of course.old) end → EndsSo (state_of course.old) end (state_of course.new) }
    ensures entries { journal.new.entries ≡ journal.old.entries ++ (letting_go 0 course.old.pmap.pages ++ Ending end ∷ []) }
    ensures room { journal.old.room ≤ journal.new.room + length (letting_go 0 course.old.pmap.pages) + 1 }
    ensures frames { HasFrames (state_of course.new) holder.new.view }
    ensures used { AreUses (state_of course.new) uses.new }
    ensures devs { course.new.devs ≡ course.old.devs }
    ensures cells { course.new.sent_from ≡ course.old.sent_from }
    ensures ended { course.new.ended ≡ Some end }
    ensures around { (state_of course.new).around ≡ (state_of course.old).around }
    ensures due { entries_due (state_of course.new) + open_count (state_of course.old) ≤ entries_due (state_of course.old) }
    ensures packets { SamePackets course.old course.new }
    ensures vcpus { course.new.vcpus ≡ course.old.vcpus }
    ensures skips { course.new.skips ≡ course.old.skips }
    ensures begins { course.new.pmap.room ≡ course.old.pmap.room }
    ensures same { holder.new.table ≡ holder.old.table }
{
    all_frames_given_back();
    let_go(course, journal);
    course.drop_dues();
    release_all(course, holder, table);
    uses.drop_frames();
    course.end(end);
    journal.push(Event::End(end));
}
