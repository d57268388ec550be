//! The journals of a record, entry by entry.
use base_words::Event;
use guest_core::{GuestRecord, RunRecord};

/// Whether a guest's journal has these entries, each so many times in a row, and no others.
fn has_entries(guest: &GuestRecord, expected: &[(Event, u64)]) -> bool {
    let mut runs = guest.journal.as_runs();
    for (event, count) in expected {
        match runs.next() {
            Some(run) if run.event == *event && run.count == *count => {}
            _ => return false,
        }
    }
    runs.next().is_none()
}

/// Whether each guest's journal has these entries, each so many times in a row, and no others.
pub fn have_entries(out: &RunRecord, expected: &[(Event, u64)]) -> bool {
    for guest in out.guests.as_slice() {
        if !has_entries(guest, expected) {
            return false;
        }
    }
    true
}
