//! A guest under the monitor: one event a call, with the run of its journal in its type.
#![tactic(auto)]

mod answers;
mod asking;
mod booting;
mod bursting;
mod causes;
mod ending;
mod failing;
mod frames;
mod guest;
mod keeping;
mod laws;
mod loading;
mod moving;
mod parts;
mod receiving;
mod records;
mod releasing;
mod resources;
mod sharing;
mod start;
mod turning;
mod using;
mod wiring;

pub use answers::{Ahead, Asked, Fate, Loaded, Packeted, Ready, Turn};
pub use guest::Guest;
pub use records::{
    Cut, FailureList, FailureRecord, GuestRecord, RecordList, RunRecord, SliceList, SliceRecord,
};
pub use resources::Resources;
