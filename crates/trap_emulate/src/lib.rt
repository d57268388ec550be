//! One own step of a virtual processor for which the hardware trapped, made by the monitor.
#![tactic(auto)]

mod accesses;
mod decision;
mod device_stores;
mod emulated;
mod laws;
mod making;
mod requests;
mod stepping;
mod traps;

pub use base_words::{Exception, MoveKind, TrapCause};
pub use emulated::{Emulated, EntryWrite, Standing};
pub use guest_devs::DevAct;
pub use laws::{input_keeps, step_leads, traps_hold};
pub use requests::{Access, access_of, asked};
pub use stepping::emulate;
