//! How a guest's packet is offered to a wire, and how one that was taken from a wire is accepted. A whole page that lies in a
//! shared frame goes without a copy, and its receiver holds the frame once more; any other packet is a copy.
#![tactic(auto)]

mod accepting;
mod answers;
mod law;
mod offering;

pub use accepting::accept;
pub use answers::{Accept, CopyCause};
pub use law::{accepted_tells, frames_on_wires, offered_fits};
pub use offering::offer;
