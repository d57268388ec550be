//! The search for a frame by nodes, its release, and the order in which nodes are asked.
#![tactic(auto)]

mod answers;
mod law;
mod nodes;
mod order;
mod search;
mod taken;

pub use answers::{FindFault, Shown, ShownList};
pub use law::{
    a_nodes_frames_are_a_range, alone_finds_next, alone_gains_the_lowest, boot_order_has_each_node,
    cell_frames_count_the_cache, first_holder_has_all, has_counts_the_frames_to_come,
    searches_take_what_is_left,
};
pub use order::boot_order;
pub use search::{find, release};
