//! The plan, carried out by workers.
#![tactic(auto)]

mod carrying;
mod draining;
mod ending;
mod ordering;
mod running;
mod serving;
mod workers;

pub use running::{Finished, finish, run};
