//! One atomic word a frame, with how many holders it has and its generation, and one a cell, with its loans.
//! No call takes a lock or waits, and each makes a fixed number of steps.
#![tactic(auto)]

mod answers;
mod crossing;
mod frames;
mod holder;
mod law;
mod loans;
mod packing;
mod rights;
mod seats;
mod table;
mod terms;
mod view;

pub use answers::{Borrow, Share, Took};
pub use crossing::cross_threads;
pub use frames::{give_back, share, take};
pub use holder::Holder;
pub use law::{
    a_refused_share_is_the_first_look, holds_and_looks_add_up, named_holds_are_frames_and_loans,
    no_frame_and_no_loan_is_no_hold,
};
pub use loans::{borrow, repay};
pub use seats::{join, split};
pub use table::{FrameTable, close};
pub use terms::Terms;
pub use view::{Hold, Look, StepKind, View};
