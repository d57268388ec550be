//! Work that is dealt to owners stretch by stretch: each takes of its own current stretch first, and then what others have left of theirs.
#![tactic(auto)]

mod deals;
mod deque;
mod gathering;
mod laws;
mod log;
mod making;
mod owner;
mod rule;
mod side;
mod task;

pub use deals::{Deals, OwnerList, ShareList, Taken, close};
pub use laws::{
    each_item_is_taken_once, stretches_stand_in_line, what_is_taken_stands_in_order,
    whole_shares_stand_in_order,
};
pub use owner::Owner;
