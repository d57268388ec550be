//! What is kept of a guest.
use crate::start::Start;
use crate::wiring::Wiring;
use base_words::GuestId;
use cell_depend::Uses;
use event_journal::Journal;
use frame_words::Holder;
use guest_course::Course;
use shootdown::GuestSeat;

/// What is kept of a guest: its number and that of its disk, what it was started from, its machine with what backs it, the holder of its frames, the counters
/// of the cells that it uses, its journal, its seat, and its ends of the wires.
#[derive(Drop)]
pub(crate) struct Parts {
    pub(crate) number: GuestId,
    pub(crate) disk: u32,
    pub(crate) start: Start,
    pub(crate) course: Course,
    pub(crate) holder: Holder,
    pub(crate) uses: Uses,
    pub(crate) journal: Journal,
    pub(crate) seat: GuestSeat,
    pub(crate) wiring: Wiring,
}
