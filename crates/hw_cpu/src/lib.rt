//! One step of a processor through its own TLB.
#![tactic(auto)]

mod accesses;
mod bus;
mod laws;
mod reaching;
mod running;
mod stepping;

pub use base_words::{Access, DataAccess, HwStep, TrapCause};
pub use bus::{Bus, Unnoted};
pub use laws::reached_frames_back;
pub use private_machine::RegBlock;
pub use reaching::KeptPage;
pub use running::run;
pub use stepping::step;
