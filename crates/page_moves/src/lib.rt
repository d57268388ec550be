//! How moves of a guest's pages begin, are acknowledged by processors, and end. Each keeps what the guest sees of every page, but the
//! end of a move that takes a page shared by its own operation. No call takes memory.
#![tactic(auto)]

mod answers;
mod beginning;
mod ending;
mod seeking;

pub use answers::{Begin, Busy, Target};
pub use beginning::begin;
pub use ending::{acked, drop_shared, finish, is_ready, is_taking, take_shared};
pub use pmap_table::Freed;
pub use seeking::{first_ready, first_waiting};
