//! A guest under the monitor: its state, the entries of its journal, and the laws that hold whatever the monitor does. Definitions
//! and laws alone; nothing runs here.
#![tactic(auto)]

mod cells;
mod frames;
mod law;
mod rows;
mod told;
mod wires;

pub use cells::{cell_failure, ends_by_use, failures_stay, goes_on_alive};
pub use frames::{exchanges, frames_spread, uses_change};
pub use law::{halts_stay, isolation, isolation_from, start_holds, worlds};
pub use rows::{
    dues_fit, halves_serve, hand_keeps, lost_is_replica, moves_counted, page_words_are_taken,
    pages_seen, pages_stay, read_only_needs, read_only_stores, row_keeps, run_grows,
    second_level_serves, skips_grow, spares_enough, steps_reach_pages, traps_alike, traps_hold,
    traps_tell,
};
pub use told::{entries_tell, journals_tell};
pub use wires::{sends, takes};
