//! An instruction retires: the program counter moves on, and what was answered stands in the virtual processor.
#![tactic(auto)]

mod law;
mod retiring;

pub use law::shown_stays;
pub use retiring::{do_system, pass, put, put_linked, put_unlinked, read_cp0, write_cp0};
