//! Reads litmus files: what callers are to load and store.
#![tactic(auto)]

mod fault;
mod key;
mod law;
mod ops;
mod place;
mod reader;
mod section;
mod value;

pub use fault::{Amount, LitmusFault};
use key::Key;
pub use law::accepted;
use place::Place;
pub use reader::read_litmus;
use section::Section;
