//! Which cells a guest uses: counters of its frames and of its loaded virtual processors, for each cell. They are what
//! counting the frames and processors anew would give.
#![tactic(auto)]

mod law;
mod rows;
mod uses;

pub use law::{
    all_frames_given_back, counters_equal_rows, frame_given_back, frame_taken, frames_are_counted,
    rows_reordered, used_where_counted, vcpu_loaded, vcpu_unloaded, vcpus_are_counted,
};
pub use rows::count_from_rows;
pub use uses::{CellCount, Uses};
