//! Coprocessor 0 of a virtual processor: its registers, exceptions, the timer and interrupts.
#![tactic(auto)]

mod coprocessor;
mod exceptions;
mod registers;
mod words;

pub use base_words::{Exception, Use};
pub use coprocessor::Cp0;
