//! The printed text of a run, and of what is made, put on a sink piece by piece.
#![tactic(auto)]

mod alone;
mod finished;
mod made_text;
mod rendering;
mod report;
mod sums;

pub use alone::{Alone, AloneList};
pub use made_text::render_made;
pub use rendering::{render, render_alone};
pub use sums::{Sums, sums_of};
