//! What the tests of guests under the monitor have in common: two guests of a description, and what they start from.
#![tactic(auto)]

mod describing;

pub use describing::{PRINTS_A, described};
