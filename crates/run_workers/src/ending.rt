//! The end of all guests of a run.
ghost use Rattle.std.specs.Prelude.{◌≡◌, ◌≢◌, [], Some, IfOk};
ghost use Rattle.base_words.specs.declared.events.End.TheVariants.{Budget};
ghost use Rattle.frame_words.specs.Holders.{IsMade};
ghost use Rattle.guest_core.specs.GuestView.{AreOf, shared_by};
ghost use Rattle.guest_lock.specs.Guests.{GuestsFrom};
ghost use Rattle.run_workers.specs.Draining.{AreDrained};
ghost use Rattle.run_workers.specs.Ending.{HasLeft, AllLeft};

use frame_words::{Holder, join};
use guest_core::{Guest, GuestRecord, RecordList, Resources};
use guest_lock::Starts;
use isolation_law::isolation_from;
use shootdown::{GuestSeat, SeatList};
use std::alloc::{AllocError, Global};
use wire_queue::{AllPasses, PassList};

/// Ends a guest for the end of the plan, unless it has ended, and takes its record, its ends of the wires and its seat. Its holder ends.
fn end(
    mut guest: Guest,
    resources: &Resources,
    first: &mut Holder,
) -> Result<(GuestRecord, PassList, GuestSeat), AllocError>
    requires goes_on { guest.state.end ≢ Some Budget }
    requires shared { AreOf (shared_by resources.now) guest }
    requires made { IsMade resources.now.table.now first.old }
    requires nothing { first.old.view.holds ≡ [] }
    ensures left { IfOk result (λ left. HasLeft guest left.0 left.1 left.2) }
    ensures nothing { first.new.view.holds ≡ [] }
    ensures same { first.new.table ≡ first.old.table }
{
    isolation_from();
    if guest.end().is_none() {
        guest.make_room()?;
        guest.end_budget(resources);
    }
    let (record, holder, passes, seat) = guest.into_record();
    join(resources.table, first, holder);
    Ok((record, passes, seat))
}

/// Ends all guests of a run, and takes their records, their ends of the wires and their seats. Their holders end, so that the first one is left alone.
pub(crate) fn end_all<N: Starts>(
    alloc: Global,
    guests: Vec<Guest>,
    resources: &Resources,
    first: &mut Holder,
) -> Result<(RecordList, AllPasses, SeatList), AllocError>
    requires guests { GuestsFrom N.starts N.board N.shared 0 guests.items }
    requires drained { AreDrained guests.items }
    requires shared { shared_by resources.now ≡ N.shared }
    requires made { IsMade resources.now.table.now first.old }
    requires nothing { first.old.view.holds ≡ [] }
    ensures left { IfOk result (λ left. AllLeft N.starts N.board N.shared.wires left.0 left.1 left.2) }
    ensures nothing { first.new.view.holds ≡ [] }
    ensures same { first.new.table ≡ first.old.table }
{
    let mut records = RecordList::new(alloc);
    let mut lists = AllPasses::new(alloc);
    let mut seats = SeatList::new(alloc);
    for guest in guests {
        let (record, passes, seat) = end(guest, resources, first)?;
        records.push(record)?;
        lists.push(passes)?;
        seats.push(seat)?;
    }
    Ok((records, lists, seats))
}
