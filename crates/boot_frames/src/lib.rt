//! The frames with which cells and guests are booted: each cell gets as many for its cache as the machine says, then
//! each guest as many as it has pages, and each a holder of its own.
#![tactic(auto)]

mod admitting;
mod answers;
mod claiming;
mod claims;
mod counts;
mod filling;
mod law;
mod loans;
mod lots;
mod needing;
mod needs;
mod placement;
mod splitting;
mod taken;

pub use admitting::{admit, admitted_claims_want_memory_alone};
pub use answers::Shortage;
pub use claims::{Claim, Taker};
pub use law::{
    a_cache_lies_in_its_cell, a_lot_holds_its_frames, an_empty_cache_takes_nothing,
    each_cell_has_its_lot, each_guest_has_its_lot, first_short_is_told_in_order,
    no_frame_is_given_twice, the_first_short_is_one_of_them,
};
pub use lots::{Lot, Placed};
pub use needing::needs_of;
pub use needs::Need;
pub use placement::place;
