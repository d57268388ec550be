//! The guests of a description, at their starts.
#![tactic(auto)]

mod booting;
mod laws;
mod source;

pub use booting::{Booted, boot};
pub use laws::sources_are_their_guests;
pub use source::{Source, SourceList};
