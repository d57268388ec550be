//! The device page of a guest: its registers, console, input, packets sent, interrupts between virtual processors and halts.
#![tactic(auto)]

mod act;
mod devs;
mod input;
mod quiet;
mod registers;
mod showing;
mod stores;

pub use act::DevAct;
pub use devs::Devs;
pub use quiet::{quiet_steps, quiet_steps_pass};
pub use registers::device_register;

/// What a load of the input register answers where no byte waits, and one of the armed page where none is.
pub(crate) const NOTHING: u32 = 0xFFFF_FFFF;
